// That a reading is the only one.
ghost use Rattle.description_laws.specs.Description.{OneReading};

// Does nothing: its contract says that no bytes have two readings.
pub fn readings_are_one(bytes: &[u8])
    ensures { OneReading bytes.now }
{}
