/// What each piece of work passes before it begins.
pub trait Gate {
    /// Passes the piece of this number, counted from 0. It changes nothing that a contract speaks of.
    fn pass(&self, piece: u32);
}

/// The gate that holds nothing.
#[derive(Clone, Copy, Debug)]
pub struct FreeGate;

impl Gate for FreeGate {
    fn pass(&self, _piece: u32) {}
}
