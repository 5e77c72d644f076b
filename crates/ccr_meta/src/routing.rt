ghost use Rattle.std.specs.Prelude.{◌≡◌, ◌<◌};
ghost use Rattle.std.specs.Option.{option_copied};
ghost use Rattle.ccr_meta.specs.Routing.{fnv_1a, route_of, name_uuid};

use ccr_op::DocId;
use uuid::Uuid;

const FNV_START: u64 = 14695981039346656037;

const FNV_FACTOR: u64 = 1099511628211;

/// The shard that a write or a delete goes to: FNV-1a with 64 bits over the bytes of its routing text,
/// or of the id where it has none, modulo the number of shards.
pub fn route(id: &DocId, routing: Option<&DocId>, shards: u32) -> u32
    requires { 0 < shards }
    ensures shard { result ≡ route_of id.now (option_copied routing.entry) shards }
    ensures there { result < shards }
{
    let text = routing.unwrap_or(id);
    let hash = fnv_1a(text.as_str().as_bytes());
    (hash % u64::from(shards)) as u32
}

fn fnv_1a(bytes: &[u8]) -> u64
    ensures { result ≡ fnv_1a bytes.now }
{
    let mut hash = FNV_START;
    for byte in bytes {
        hash = (hash ^ u64::from(*byte)).wrapping_mul(FNV_FACTOR);
    }
    hash
}

/// The UUID of version 5 (RFC 9562) of this name, in the namespace of the nil UUID.
pub fn uuid_of(text: &str) -> Uuid
    ensures { result ≡ name_uuid text.now }
{
    Uuid::new_v5(&Uuid::nil(), text.as_bytes())
}
