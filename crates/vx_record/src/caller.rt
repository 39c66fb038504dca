use crate::lists::Lists;

/// Whoever made calls from a seat.
pub trait Caller {
    ghost use Rattle.std.specs.Prelude.{◌≡◌};
    ghost use Rattle.vx_record.specs.Settling.{CallerData};

    ghost caller: { Self → CallerData };

    /// The number of its seat.
    fn seat(&self) -> u8
        ensures { result ≡ (caller self.now).seat };

    /// Its calls.
    fn lists(&self) -> &Lists
        ensures { result.now ≡ (caller self.now).lists };
}
