use vx_sector::Sector;

/// Where a sector of the world stands, or is away from.
pub trait Place {
    ghost use Rattle.std.specs.Bool.{Decides};
    ghost use Rattle.std.specs.Prelude.{◌≡◌, ◌<◌, ℕ, Option, option_map};
    ghost use Rattle.vx_sector.specs.SectorData.{SectorData};
    ghost use Rattle.vx_record.specs.Settling.{KnownData, IsKnown};

    /// Who knows what the sectors are to be.
    type Keeper;

    ghost sector: { Self → Option SectorData };

    ghost known: { Self.Keeper → ℕ → KnownData };

    ghost count: { Self.Keeper → ℕ };

    /// The sector, if it is there.
    fn sector(&self) -> Option<&Sector>
        ensures { option_map (λ s. s.now) result ≡ sector self.now };

    /// Whether the sector is there, and is what the keeper has of the sector of that number.
    fn is_known(&self, at: usize, keeper: &Self::Keeper) -> bool
        requires { at < count keeper.now }
        ensures { Decides result (IsKnown (sector self.now) (known keeper.now at)) };
}
