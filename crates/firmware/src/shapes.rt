// What crosses to C besides numbers, slices, routers and records.

// A stack: its sizes, the set of each direction, and the scheme by which it is planned and its bytes are read.
// Schemes: 0 MD-safe, 1 random-offline, 2 optimistic.
#[repr(C)]
#[derive(Clone, Copy)]
pub struct Stack {
    pub width: u8,
    pub height: u8,
    pub planes: u8,
    pub north: u8,
    pub east: u8,
    pub south: u8,
    pub west: u8,
    pub scheme: u8,
}

// The fault of a reading. Layers: 0 byte, 1 record, 2 stack.
#[repr(C)]
#[derive(Clone, Copy)]
pub struct Fault {
    pub place: usize,
    pub number: u8,
    pub layer: u8,
}
