// What is proved of the table once and for all.
ghost use Rattle.channel_laws.specs.Buffers.{Coded};
ghost use Rattle.channel_laws.specs.Certificate.{Certified};
ghost use Rattle.channel_laws.specs.Table.{Numbered};

use mesh::Sizes;

// Does nothing: its contract says that buffers and ports are known by their numbers.
pub fn numbers_are_faithful()
    ensures { Coded }
{}

// Does nothing: its contract says that each buffer of a stack has a record of its own, and each record a buffer.
pub fn records_are_apart(sizes: Sizes)
    ensures { Numbered sizes }
{}

// Does nothing: its contract is the certificate, for every guide, every planned stack and every list of calls.
pub fn certificate_holds()
    ensures { Certified }
{}
