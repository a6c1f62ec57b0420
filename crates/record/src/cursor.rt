// The fields of a record in the order of their bits, each where the one before it ends.
ghost use Rattle.std.specs.Prelude.{◌≡◌, ◌+◌, ◌*◌, ◌%◌, ◌≤◌, ◌<◌, ◌^◌, ◌==◌, length, take, drop};
ghost use Rattle.std.specs.Bool.{then_some};
ghost use Rattle.std.proofs.lemmas.List.Edits.{sets};
ghost use Rattle.record.specs.Cursor.{at, behind};
ghost use Rattle.record.specs.Read.{low_number};

use crate::map::Map;

// Where the next field stands, and the map with its bit as the lowest.
#[derive(Clone, Copy)]
pub(crate) struct Cursor {
    place: usize,
    map: Map,
}

impl Cursor {
    // Before the first field of a record with this map.
    pub(crate) fn new(map: Map) -> Self
        ensures { result ≡ at 2 map }
    {
        Self { place: 2, map }
    }

    // Where the next field, of N bytes, stands; none where its bit does not stand. The place goes on by a product: tried
    // with a branch, by which reading takes a tenth longer. The bound on the bytes is a clause, here and below, since the
    // cursor does not hold them.
    fn field<const N: usize>(&mut self) -> Option<usize>
        requires { self.old.place + self.old.map % 2 * N < 2 ^ 64 }
        ensures place { result ≡ then_some (self.old.map % 2 == 1) self.old.place }
        ensures cursor { self.new ≡ behind N self.old }
    {
        let place = self.place;
        let has = self.map.take_first();
        self.place += usize::from(has) * N;
        has.then_some(place)
    }

    // The bytes of the next field: zeros where its bit does not stand.
    #[tactic(auto, using(crate::proofs::Bytes::low_zeros), unfolding(crate::specs::Read::low_number))]
    pub(crate) fn read<const N: usize>(&mut self, bytes: &[u8]) -> [u8; N]
        requires { self.old.place + self.old.map % 2 * N ≤ length bytes.now }
        ensures value { low_number result ≡ low_number (take (self.old.map % 2 * N) (drop self.old.place bytes.now)) }
        ensures cursor { self.new ≡ behind N self.old }
    {
        match self.field::<N>() {
            Some(place) => bytes[place..place + N].try_into().unwrap(),
            None => [0; N],
        }
    }

    // Stores the bytes of the next field: none where its bit does not stand.
    #[tactic(auto, using(crate::proofs::Bytes::put_field_once))]
    pub(crate) fn write<const N: usize>(&mut self, buffer: &mut [u8], field: [u8; N])
        requires { self.old.place + self.old.map % 2 * N ≤ length buffer.old }
        ensures bytes { buffer.new ≡ sets buffer.old self.old.place (take (self.old.map % 2 * N) field.entry) }
        ensures cursor { self.new ≡ behind N self.old }
    {
        if let Some(place) = self.field::<N>() {
            buffer[place..place + N].copy_from_slice(&field);
        }
    }
}
