//! The scripts that are spent.

/// The scripts that the inputs of some transactions spend.
pub trait SpentScripts {
    /// That of an input of the transaction at a place, if it is known.
    fn script(&self, place: usize, input: usize) -> Option<&[u8]>;
}
