ghost use Rattle.std.specs.Prelude.{◌≡◌, ◌+◌, ◌≤◌, ℕ, List, length, take, drop, refl};
ghost use Rattle.layout.specs.Cells.{put, sizes_of, sizes_cells, limits_by, server_in, server_cells, block_in, block_cells};

use crate::{BLOCK_CELLS, SERVER_CELLS, SIZES_CELLS};
use command::{CABINETS, Limits};
use state::{Block, Server, Sizes};

// What stands in a row as N cells.
pub trait Stored<const N: usize>: Copy {
    // what N cells say, and the cells that say it
    ghost of_cells: { List ℕ → Self };

    ghost cells_of: { Self → List ℕ };

    fn from_cells(cells: [u32; N]) -> Self
        ensures { result ≡ of_cells cells.entry };

    fn to_cells(self) -> [u32; N]
        ensures { result ≡ cells_of self };

    // what is stored is what is read
    ghost same: { (v : Self) → of_cells (cells_of v) ≡ v };
}

// The sizes in the head of a room.
impl Stored<SIZES_CELLS> for Sizes {
    ghost of_cells = { sizes_of };

    ghost cells_of = { sizes_cells };

    ghost same = { λ v. refl };

    fn from_cells(cells: [u32; SIZES_CELLS]) -> Sizes
        ensures { result ≡ sizes_of cells }
    {
        let [servers, drives, slots] = cells;
        Sizes {
            servers,
            drives,
            slots,
        }
    }

    fn to_cells(self) -> [u32; SIZES_CELLS]
        ensures { result ≡ sizes_cells self }
    {
        [self.servers, self.drives, self.slots]
    }
}

// The limits, a cell for each cabinet.
impl Stored<CABINETS> for Limits {
    ghost of_cells = { limits_by };

    ghost cells_of = { λ v. v.0 };

    ghost same = { λ v. refl };

    fn from_cells(cells: [u32; CABINETS]) -> Limits
        ensures { result ≡ limits_by cells }
    {
        Limits(cells)
    }

    fn to_cells(self) -> [u32; CABINETS]
        ensures { result ≡ self.0 }
    {
        self.0
    }
}

// The eleven cells of a server record.
impl Stored<SERVER_CELLS> for Server {
    ghost of_cells = { λ cells. server_in cells 0 };

    ghost cells_of = { server_cells };

    ghost same = { λ v. refl };

    fn from_cells(cells: [u32; SERVER_CELLS]) -> Server
        ensures { result ≡ server_in cells 0 }
    {
        let [
            phase,
            mbal,
            bal,
            inp,
            offer,
            top,
            seenbal,
            seeninp,
            written,
            read,
            agreed,
        ] = cells;
        Server {
            phase,
            mbal,
            bal,
            inp,
            offer,
            top,
            seenbal,
            seeninp,
            written,
            read,
            agreed,
        }
    }

    fn to_cells(self) -> [u32; SERVER_CELLS]
        ensures { result ≡ server_cells self }
    {
        [
            self.phase,
            self.mbal,
            self.bal,
            self.inp,
            self.offer,
            self.top,
            self.seenbal,
            self.seeninp,
            self.written,
            self.read,
            self.agreed,
        ]
    }
}

// The four cells of a block.
impl Stored<BLOCK_CELLS> for Block {
    ghost of_cells = { λ cells. block_in cells 0 };

    ghost cells_of = { block_cells };

    ghost same = { λ v. refl };

    fn from_cells(cells: [u32; BLOCK_CELLS]) -> Block
        ensures { result ≡ block_in cells 0 }
    {
        let [mbal, bal, inp, done] = cells;
        Block {
            mbal,
            bal,
            inp,
            done,
        }
    }

    fn to_cells(self) -> [u32; BLOCK_CELLS]
        ensures { result ≡ block_cells self }
    {
        [self.mbal, self.bal, self.inp, self.done]
    }
}

// What stands at a place of a row. A row and a place, and no part of it: `Plan` counts the places in the row.
pub fn stored_at<T: Stored<N>, const N: usize>(row: &[u32], at: usize) -> T
    requires { at + N ≤ length row.now }
    ensures { result ≡ T.of_cells (take N (drop at row.now)) }
{
    T::from_cells(row[at..at + N].try_into().unwrap())
}

// Stores a value at a place of a row.
pub fn store_at<T: Stored<N>, const N: usize>(row: &mut [u32], at: usize, v: T)
    requires { at + N ≤ length row.old }
    ensures { row.new ≡ put row.old at (T.cells_of v) }
{
    row[at..at + N].copy_from_slice(&v.to_cells());
}
