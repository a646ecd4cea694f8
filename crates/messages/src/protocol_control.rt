// Bodies of types 1, 2, 3, 5 and 6.
ghost use Rattle.std.specs.Prelude.{cond, ◌≡◌, eqb, length, drop};
ghost use Rattle.octets.specs.BigEndian.{be};
ghost use Rattle.amf0.specs.Places.{malformed};
ghost use Rattle.messages.specs.Incoming.{whole, peer_bandwidth, bandwidth_of};
ghost use Rattle.messages.specs.Places.{placed};

use crate::rtmp_message::{PeerBandwidthLimitType, RtmpMessage};
use amf0::Malformed;

// The number that the bytes from `at` to the end of the body are, if they are 4.
pub fn last_word(body: &[u8], at: usize) -> Result<u32, Malformed>
    ensures { result ≡ cond (eqb (length (drop at body.now)) 4) (Ok (be (drop at body.now))) (Err malformed) }
{
    if body.len() <= at {
        return Err(Malformed);
    }
    if body.len() - at != 4 {
        return Err(Malformed);
    }
    octets::read_be32(body, at).ok_or(Malformed)
}

pub fn set_peer_bandwidth(body: &[u8]) -> Result<RtmpMessage, Malformed>
    ensures { result ≡ placed body.now (whole (λ b. peer_bandwidth b.size b.limit) (bandwidth_of body.now)) }
{
    if body.len() != 5 {
        return Err(Malformed);
    }
    let size = octets::read_be32(body, 0).ok_or(Malformed)?;
    let limit = PeerBandwidthLimitType::try_from(body[4])?;
    Ok(RtmpMessage::SetPeerBandwidth { size, limit })
}
