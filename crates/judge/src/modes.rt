// Which mode takes which service, by the number of the rules.
ghost use Rattle.std.specs.Prelude.{◌≡◌};
ghost use Rattle.judge.specs.Modes.{reach_of, takes as takesOf, reaches as reachesOf};

use crate::Reach;
use crate::levels::Mode;
use pdu::Service;
use sheet::LATER;

// Under the later rules a restart needs no connection.
fn restart_reach(rules: u8) -> Reach
    ensures { result ≡ reach_of rules Service.Restart }
{
    if rules == LATER {
        Reach::PointToPoint
    } else {
        Reach::Connected
    }
}

// Who can reach a service. An answer to a tool never reaches the device.
pub fn reach(rules: u8, k: Service) -> Reach
    ensures { result ≡ reach_of rules k }
{
    match k {
        Service::GroupValueRead | Service::GroupValueResponse | Service::GroupValueWrite => {
            Reach::Multicast
        }
        Service::IndividualAddressWrite
        | Service::IndividualAddressRead
        | Service::SerialNumberRead
        | Service::SerialNumberWrite => Reach::Broadcast,
        Service::DeviceDescriptorRead
        | Service::PropertyValueRead
        | Service::PropertyValueWrite
        | Service::PropertyDescriptionRead => Reach::PointToPoint,
        Service::MemoryRead
        | Service::MemoryWrite
        | Service::MemoryBitWrite
        | Service::AuthorizeRequest
        | Service::KeyWrite
        | Service::UserMemoryRead
        | Service::UserMemoryWrite => Reach::Connected,
        Service::Restart => restart_reach(rules),
        Service::IndividualAddressResponse
        | Service::SerialNumberResponse
        | Service::DeviceDescriptorResponse
        | Service::PropertyValueResponse
        | Service::PropertyDescriptionResponse
        | Service::MemoryResponse
        | Service::AuthorizeResponse
        | Service::KeyResponse
        | Service::UserMemoryResponse => Reach::Never,
    }
}

// A mode is one of those that reach it.
pub fn takes(r: Reach, mode: u8) -> bool
    ensures { result ≡ takesOf r mode }
{
    match r {
        Reach::Multicast => mode == Mode::Multicast as u8,
        Reach::Broadcast => mode == Mode::Broadcast as u8,
        Reach::PointToPoint => {
            mode == Mode::Connectionless as u8 || mode == Mode::Connected as u8
        }
        Reach::Connected => mode == Mode::Connected as u8,
        Reach::Never => false,
    }
}

// Some mode takes it.
pub fn reaches(r: Reach) -> bool
    ensures { result ≡ reachesOf r }
{
    !matches!(r, Reach::Never)
}
