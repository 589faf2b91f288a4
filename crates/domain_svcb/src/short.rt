//! Values of parameters, of at most 65,535 octets.
ghost use Rattle.std.specs.Prelude.{◌^◌, ◌<◌, length};

/// The octets of a value, at most 65,535.
#[derive(Drop)]
pub(crate) struct ShortValue {
    /// The octets.
    pub(crate) octets: Vec<u8>,
    ghost fits: { length octets.items < 2 ^ 16 },
}
