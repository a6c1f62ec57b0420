// The map byte: which fields a record has, and how long that makes it.
ghost use Rattle.std.specs.Prelude.{◌≡◌, ℕ, ◌/◌, ◌%◌, ◌<◌, ◌==◌};
ghost use Rattle.record.specs.Fields.{values_of};
ghost use Rattle.record.specs.Map.{widths, marks_of, map_of, record_length, asks_more, zero_among, IsMap};

use crate::fields::Fields;
use checks::Refusal;
use std::marker::Model;

// A bit for each of the five fields; a contract sees the number. In a usize: tried with a byte, by which reading takes a
// seventh longer.
#[derive(Clone, Copy)]
pub(crate) struct Map(usize);

impl Model for Map {
    ghost Value = { ℕ };

    ghost view = { λ map. map.0 };

    ghost invariant = { λ map. map.0 < 32 };

    ghost inverse = { λ n. record { 0 = n } };
}

// By the first byte of a record. Inlined, so that the caller branches at once on a byte that is no map; reading takes a
// tenth longer without.
impl TryFrom<u8> for Map {
    type Error = Refusal;

    ghost try_from_gives = { IsMap };

    #[inline(always)]
    fn try_from(byte: u8) -> Result<Self, Refusal> {
        if byte < 32 {
            Ok(Map(usize::from(byte)))
        } else {
            Err(Refusal::Malformed)
        }
    }
}

impl Map {
    pub(crate) const SERVER: Map = Map(1);

    const SLOT: Map = Map(2);

    pub(crate) const DRIVE: Map = Map(4);

    const OTHER: Map = Map(8);

    const NUMBER: Map = Map(16);

    // The fields of a kind that acts in a slot.
    pub(crate) const AT_SLOT: Map = Map(Map::SERVER.0 + Map::SLOT.0);

    pub(crate) const WITH_NUMBER: Map = Map(Map::AT_SLOT.0 + Map::NUMBER.0);

    pub(crate) const WITH_DRIVE: Map = Map(Map::AT_SLOT.0 + Map::DRIVE.0);

    pub(crate) const WITH_OTHER: Map = Map(Map::WITH_DRIVE.0 + Map::OTHER.0);

    // The fields that are not 0. A sum: tried as a fold over the five tests, which is proved only in a function of its
    // own, whose clause says the fold again.
    #[tactic(auto, unfolding(crate::specs::Map::marks_of))]
    pub(crate) fn marks_of(f: Fields) -> Self
        ensures { result ≡ marks_of (values_of f) }
    {
        Map(
            usize::from(f.server != 0)
                + 2 * usize::from(f.slot != 0)
                + 4 * usize::from(f.drive != 0)
                + 8 * usize::from(f.other != 0)
                + 16 * usize::from(f.number != 0),
        )
    }

    // The map of these fields, of a kind that has the fields of this mask.
    #[tactic(auto, using(crate::proofs::MapLaws::marks_in_mask))]
    pub(crate) fn map_of(self, f: Fields) -> Self
        ensures { result ≡ map_of self (values_of f) }
    {
        Map(self.0 & Map::marks_of(f).0)
    }

    // The length of a record with this map. A sum: tried as a fold over the widths, for which no bound is proved, and
    // with `count_ones`, by which reading takes a seventh longer.
    #[tactic(auto, using(crate::proofs::Five::record_length_lem))]
    pub(crate) fn record_length(self) -> usize
        ensures { result ≡ record_length self }
    {
        2 + self.0 % 2 + self.0 / 2 % 2 + self.0 / 4 % 2 + self.0 / 8 % 2 + self.0 / 16 * 4
    }

    // Whether a bit stands that the mask lacks: the mask of a kind, or of the fields that are not 0.
    #[tactic(auto, using(crate::proofs::MapLaws::asks_beyond))]
    pub(crate) fn asks_more(self, mask: Map) -> bool
        ensures { result ≡ asks_more widths self mask }
    {
        (self.0 | mask.0) != mask.0
    }

    // Whether a bit stands whose field is 0.
    #[tactic(auto, using(crate::proofs::Marks::asks_zero))]
    pub(crate) fn zero_among(self, f: Fields) -> bool
        ensures { result ≡ zero_among self (values_of f) }
    {
        self.asks_more(Map::marks_of(f))
    }

    // Takes off the first field: whether its bit stands.
    pub(crate) fn take_first(&mut self) -> bool
        ensures first { result ≡ (self.old % 2 == 1) }
        ensures others { self.new ≡ self.old / 2 }
    {
        let first = self.0 % 2 == 1;
        self.0 /= 2;
        first
    }
}

// As the first byte of a record.
impl From<Map> for u8 {
    ghost from_gives = { λ map byte. byte ≡ map };

    fn from(map: Map) -> u8 {
        // `as` keeps the number: a map is below 32.
        map.0 as u8
    }
}
