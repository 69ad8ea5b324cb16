// The outcomes 3 to 9 and 14, in their order; the level that a request acts at.
ghost use Rattle.std.specs.Prelude.{◌≡◌, length};
ghost use Rattle.sheet.specs.Rules.{refusal_of};
ghost use Rattle.judge.specs.Session.{level_in};
ghost use Rattle.judge.specs.Modes.{reach_of, takes};
ghost use Rattle.judge.specs.Judge.{is_shut};
ghost use Rattle.plain_services.specs.Refusal.{told};
ghost use Rattle.plain.specs.Order.{first_of, next_of};

use judge::Session;
use pdu::Service;
use plain_check::Refused;
use plain_services::Refusal;

// 4 or 14: what refuses the sheet refuses the request.
fn refused_sheet(sheet: &[u8]) -> Result<(), Refusal>
    ensures { told result ≡ refusal_of sheet.now }
{
    match plain_check::refusal(sheet) {
        Ok(()) => Ok(()),
        Err(Refused::Bad) => Err(Refusal::Bad),
        Err(Refused::Old) => Err(Refusal::Old),
    }
}

// 3, 4 or 14, 5, 6 and 7, in this order.
pub fn refused_first(
    room: usize,
    sheet: &[u8],
    apdu: &[u8],
    mode: u8,
    session: Session,
) -> Result<(), Refusal>
    ensures { told result ≡ first_of room (refusal_of sheet.now) (length apdu.now) mode (is_shut session mode) }
{
    if room < 16 {
        return Err(Refusal::Room);
    }
    refused_sheet(sheet)?;
    if apdu.len() < 2 || 16 < apdu.len() {
        return Err(Refusal::Length);
    }
    if 3 < mode {
        return Err(Refusal::Mode);
    }
    if mode == 3 && !session.opened {
        return Err(Refusal::Unconnected);
    }
    Ok(())
}

// The mode takes the service: 0 multicast, 1 broadcast, 2 connectionless, 3 on a connection. A restart is taken connectionless
// under rules 1.
fn is_taken(service: Service, rules: u8, mode: u8) -> bool
    ensures { result ≡ takes (reach_of rules service) mode }
{
    match service {
        Service::GroupValueRead => mode == 0,
        Service::GroupValueResponse => mode == 0,
        Service::GroupValueWrite => mode == 0,
        Service::IndividualAddressWrite => mode == 1,
        Service::IndividualAddressRead => mode == 1,
        Service::SerialNumberRead => mode == 1,
        Service::SerialNumberWrite => mode == 1,
        Service::DeviceDescriptorRead => mode == 2 || mode == 3,
        Service::PropertyValueRead => mode == 2 || mode == 3,
        Service::PropertyValueWrite => mode == 2 || mode == 3,
        Service::PropertyDescriptionRead => mode == 2 || mode == 3,
        Service::MemoryRead => mode == 3,
        Service::MemoryWrite => mode == 3,
        Service::MemoryBitWrite => mode == 3,
        Service::AuthorizeRequest => mode == 3,
        Service::KeyWrite => mode == 3,
        Service::Restart => mode == 3 || mode == 2 && rules == 1,
        Service::IndividualAddressResponse => false,
        Service::SerialNumberResponse => false,
        Service::DeviceDescriptorResponse => false,
        Service::PropertyValueResponse => false,
        Service::PropertyDescriptionResponse => false,
        Service::MemoryResponse => false,
        Service::AuthorizeResponse => false,
        Service::KeyResponse => false,
        Service::UserMemoryRead => mode == 3,
        Service::UserMemoryResponse => false,
        Service::UserMemoryWrite => mode == 3,
    }
}

// 8, then 9.
pub fn refused_next(found: Option<Service>, rules: u8, mode: u8) -> Result<(), Refusal>
    ensures { told result ≡ next_of found rules mode }
{
    let Some(service) = found else {
        return Err(Refusal::Service);
    };
    if is_taken(service, rules, mode) {
        return Ok(());
    }
    // An answer to a tool is taken in no mode: it is no request, and its code unknown to the device. What mode 2 takes 3 takes.
    if is_taken(service, rules, 0) || is_taken(service, rules, 1) || is_taken(service, rules, 3) {
        return Err(Refusal::OtherMode);
    }
    Err(Refusal::Service)
}

// The level that a request acts at: the session's on a connection, else 3. A level above 3 is read as 3.
pub fn acting_level(session: Session, mode: u8) -> u8
    ensures { result ≡ level_in session mode }
{
    if mode == 3 { session.level.min(3) } else { 3 }
}
