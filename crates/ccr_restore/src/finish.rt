ghost use Rattle.std.specs.Prelude.{◌≡◌, ℕ, ◌*◌, ◌<◌, ◌^◌, length, IfOk, option_copied};
ghost use Rattle.std.specs.List.{flat_map, range_with_len};
ghost use Rattle.ccr_segment.specs.Index.{ops_in};
ghost use Rattle.ccr_model.specs.Restores.{bytes_at, file_bytes, files_of};
ghost use Rattle.ccr_restore.specs.Finishing.{AreSpelled, IsSpelled};
ghost use Rattle.ccr_restore.specs.Stages.{fetch_of};
ghost use Rattle.ccr_restore.specs.Index.{IsIndex};
ghost use Rattle.ccr_restore.specs.Places.{parts_in};

use crate::fetch::Fetch;
use crate::places::{Place, offset_of, parts_in};
use crate::requests::Part;
use ccr_segment::{BadSegment, Segment};
use std::alloc::{AllocError, Global};
use std::collections::BTreeMap;

/// Where the first part of each place stands.
fn index_of(alloc: Global, parts: &[Part]) -> Result<BTreeMap<Place, usize>, AllocError>
    ensures { IfOk result (λ index. IsIndex parts.now index.entries) }
{
    let mut index = BTreeMap::new(alloc);
    let mut at = parts.len();
    while at > 0 {
        at -= 1;
        index.insert(parts[at].place(), at)?;
    }
    Ok(index)
}

/// The bytes of the part at a place, none where it isn't there.
fn bytes_at<'a>(parts: &'a [Part], index: &BTreeMap<Place, usize>, place: Place) -> &'a [u8]
    requires { IsIndex parts.now index.now.entries }
    ensures { result.now ≡ bytes_at parts.now place }
{
    let Some(at) = index.get(&place) else {
        return &[];
    };
    match parts.get(*at) {
        Some(part) => part.bytes(),
        None => &[],
    }
}

/// The bytes of a file.
fn join_file(
    alloc: Global,
    fetch: &Fetch,
    index: &BTreeMap<Place, usize>,
    file: u32,
    size: u64,
) -> Result<Vec<u8>, AllocError>
    requires { IsIndex fetch.now.parts.items index.now.entries }
    ensures { IfOk result (λ bytes. bytes.items ≡ flat_map {X = ℕ} {A = ℕ} (λ n. bytes_at fetch.now.parts.items (file, n * fetch.now.places.chunk_size)) (range_with_len 0 (parts_in fetch.now.places.chunk_size size))) }
{
    let chunk_size = fetch.places.chunk_size();
    let mut bytes = Vec::new(alloc);
    for part in 0..parts_in(chunk_size, size) {
        let offset = offset_of(chunk_size, size, part);
        bytes.extend_from_slice(bytes_at(fetch.parts.as_slice(), index, (file, offset)))?;
    }
    Ok(bytes)
}

/// The segment that bytes are known to spell.
fn open_segment(alloc: Global, bytes: Vec<u8>) -> Result<Segment, AllocError>
    requires { IsSpelled bytes.items }
    ensures { IfOk result (λ segment. segment ≡ ops_in bytes.items) }
{
    match Segment::open(alloc, bytes) {
        Ok(segment) => Ok(segment),
        Err(BadSegment::Memory) => Err(AllocError),
        Err(_) => unreachable!(),
    }
}

/// The files, as segments. The cost goes with the bytes and, for each part, with the logarithm of how many there are.
pub fn join_files(alloc: Global, fetch: &Fetch) -> Result<Vec<Segment>, AllocError>
    requires { AreSpelled fetch.now.places.chunk_size (fetch_of fetch.now) }
    ensures { IfOk result (λ files. files.items ≡ files_of fetch.now.places.chunk_size (fetch_of fetch.now)) }
{
    let index = index_of(alloc, fetch.parts.as_slice())?;
    let mut files = Vec::new(alloc);
    for (file, size) in fetch.places.sizes().iter().enumerate() {
        let bytes = join_file(alloc, fetch, &index, file as u32, *size)?;
        let segment = open_segment(alloc, bytes)?;
        files.push(segment)?;
    }
    Ok(files)
}
