// What a slot's state says. Each contract is the equation with the function of that name in the crate `definition`.
#![tactic(auto)]

ghost use Rattle.std.specs.Prelude.{◌≡◌};
ghost use Rattle.definition.specs.Table.{is_disconnected, is_connecting, is_peer_connecting, is_connected, is_connect_failed, is_peer_disconnecting, is_disconnecting, is_due, identifier_of, failure_of};

use channel::ChannelState;
use codes::LeCreditConnResultCode;

pub fn is_disconnected(k: ChannelState) -> bool
    ensures { result ≡ is_disconnected k }
{
    matches!(k, ChannelState::Disconnected)
}

pub fn is_connecting(k: ChannelState) -> bool
    ensures { result ≡ is_connecting k }
{
    matches!(k, ChannelState::Connecting(_))
}

pub fn is_peer_connecting(k: ChannelState) -> bool
    ensures { result ≡ is_peer_connecting k }
{
    matches!(k, ChannelState::PeerConnecting(_))
}

pub fn is_connected(k: ChannelState) -> bool
    ensures { result ≡ is_connected k }
{
    matches!(k, ChannelState::Connected)
}

pub fn is_connect_failed(k: ChannelState) -> bool
    ensures { result ≡ is_connect_failed k }
{
    matches!(k, ChannelState::ConnectFailed(_))
}

pub fn is_peer_disconnecting(k: ChannelState) -> bool
    ensures { result ≡ is_peer_disconnecting k }
{
    matches!(k, ChannelState::PeerDisconnecting(_))
}

pub fn is_disconnecting(k: ChannelState) -> bool
    ensures { result ≡ is_disconnecting k }
{
    matches!(k, ChannelState::Disconnecting(_))
}

pub fn is_due(k: ChannelState) -> bool
    ensures { result ≡ is_due k }
{
    matches!(
        k,
        ChannelState::PeerDisconnecting(_) | ChannelState::Disconnecting(false)
    )
}

// The identifier that a state carries; 0 where it carries none.
pub fn identifier_of(k: ChannelState) -> u8
    ensures { result ≡ identifier_of k }
{
    match k {
        ChannelState::Connecting(id)
        | ChannelState::PeerConnecting(id)
        | ChannelState::PeerDisconnecting(id) => id,
        _ => 0,
    }
}

// The result code that a failed attempt got; Success where there is none.
pub fn failure_of(k: ChannelState) -> LeCreditConnResultCode
    ensures { result ≡ failure_of k }
{
    match k {
        ChannelState::ConnectFailed(code) => code,
        _ => LeCreditConnResultCode::Success,
    }
}
