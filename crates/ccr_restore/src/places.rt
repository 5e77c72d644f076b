ghost use Rattle.std.specs.Prelude.{◌≡◌, ◌+◌, ◌-◌, ◌*◌, ◌==◌, ◌<◌, ◌≤◌, ◌^◌, ◌∷◌, length, drop, slice_get, IfOk, OnOk, OnErr, Some, ℕ, false};
ghost use Rattle.ccr_journal.specs.Params.{IsFrom1Below};
ghost use Rattle.ccr_restore.specs.Places.{all_places, places_left, parts_in, left_from};

use std::alloc::AllocError;
use std::marker::Model;

/// The number of a file, and the offset of one of its parts.
pub type Place = (u32, u64);

/// A walk over the parts of a session's files, in order of file and offset. Each part but a file's last has the
/// same size. Contracts see that size, the files' sizes, and how many parts were passed.
#[derive(Drop)]
pub struct Places {
    chunk_size: u32,
    sizes: Vec<u64>,
    asked: u64,
    file: usize,
    part: u64,
}

impl Model for Places {
    ghost use Rattle.ccr_restore.specs.Places.{Walk, IsAt};

    ghost Value = { Walk };

    ghost view = { λ a. record { chunk_size = a.chunk_size; sizes = a.sizes.items; asked = a.asked } };

    ghost invariant = { λ a. IsAt a.chunk_size a.sizes.items a.asked a.file a.part };
}

/// How many parts a file of this size has.
pub fn parts_in(chunk_size: u32, size: u64) -> u64
    requires { 1 ≤ chunk_size }
    ensures { result ≡ parts_in chunk_size size }
{
    size.div_ceil(u64::from(chunk_size))
}

/// The offset of a part of a file.
pub fn offset_of(chunk_size: u32, size: u64, part: u64) -> u64
    requires { part < parts_in chunk_size size }
    ensures { result ≡ part * chunk_size }
{
    part * u64::from(chunk_size)
}

/// The first file from this one on that isn't empty, or the end of the files.
fn next_file(chunk_size: u32, sizes: &[u64], from: usize) -> usize
    requires within { from ≤ length sizes.now }
    requires some { 1 ≤ chunk_size }
    ensures within { result ≤ length sizes.now }
    ensures there { (size : ℕ) → slice_get sizes.now result ≡ Some size → 0 < parts_in chunk_size size }
    ensures same { left_from chunk_size result 0 (drop result sizes.now) ≡ left_from chunk_size from 0 (drop from sizes.now) }
{
    let mut file = from;
    while file < sizes.len() {
        if sizes[file] > 0 {
            return file;
        }
        file += 1;
    }
    file
}

impl Places {
    /// The walk at its start. The cost goes with the empty files at the front.
    pub fn new(chunk_size: u32, sizes: Vec<u64>) -> Self
        requires chunk { IsFrom1Below (2 ^ 24 + 1) chunk_size }
        requires few { length sizes.items < 2 ^ 32 }
        ensures { result ≡ record { chunk_size = chunk_size; sizes = sizes.items; asked = 0 } }
    {
        let file = next_file(chunk_size, sizes.as_slice(), 0);
        Places {
            chunk_size,
            sizes,
            asked: 0,
            file,
            part: 0,
        }
    }

    /// The sizes of the files, in bytes.
    pub fn sizes(&self) -> &[u64]
        ensures value { result.now ≡ self.now.sizes }
        ensures few { length self.now.sizes < 2 ^ 32 }
    {
        self.sizes.as_slice()
    }

    /// The size of a part.
    pub fn chunk_size(&self) -> u32
        ensures value { result ≡ self.now.chunk_size }
        ensures bounds { IsFrom1Below (2 ^ 24 + 1) self.now.chunk_size }
    {
        self.chunk_size
    }

    /// Whether all parts were passed.
    pub fn is_done(&self) -> bool
        ensures { result ≡ (self.now.asked == length (all_places self.now)) }
    {
        self.file == self.sizes.len()
    }

    /// Passes the next part.
    pub fn next(&mut self) -> Result<Place, AllocError>
        requires { (self.old.asked == length (all_places self.old)) ≡ false }
        ensures place { IfOk result (λ place. places_left self.old ≡ place ∷ drop (self.old.asked + 1) (all_places self.old)) }
        ensures ok { OnOk result (self.new ≡ record self.old { asked = self.old.asked + 1 }) }
        ensures err { OnErr result (self.new ≡ self.old) }
    {
        let Some(asked) = self.asked.checked_add(1) else {
            return Err(AllocError);
        };
        let size = self.sizes[self.file];
        let parts = parts_in(self.chunk_size, size);
        let offset = offset_of(self.chunk_size, size, self.part);
        let place = (self.file as u32, offset);
        self.asked = asked;
        if self.part + 1 < parts {
            self.part += 1;
            return Ok(place);
        }
        self.file = next_file(self.chunk_size, self.sizes.as_slice(), self.file + 1);
        self.part = 0;
        Ok(place)
    }
}
