ghost use Rattle.std.specs.Prelude.{◌≡◌};
ghost use Rattle.ccr_segment.specs.Segment.{version_for as version_byte};

/// The version of the segments without a routing.
pub const PLAIN_VERSION: u8 = 1;

/// The version of the segments in which an operation has a routing.
pub const ROUTED_VERSION: u8 = 2;

/// The version of a segment in which an operation has a routing, or none has.
pub fn version_for(routed: bool) -> u8
    ensures { result ≡ version_byte routed }
{
    if routed {
        ROUTED_VERSION
    } else {
        PLAIN_VERSION
    }
}
