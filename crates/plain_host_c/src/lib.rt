// The archive for C of the plain engine: the call of include/kelindap_plain.h, the function of `plain_host` by its name, with that
// one's contract.
#![tactic(auto)]

ghost use Rattle.device.specs.Events.{Called};
ghost use Rattle.plain_host.specs.Calls.{gave};

use device::Sessions;
use plain_host::Reply;

#[unsafe(no_mangle)]
pub extern "C" fn kelindap_plain_request(
    sessions: Sessions,
    sheet: &mut [u8],
    mode: u8,
    connection: u8,
    group: u16,
    apdu: &[u8],
    answer: &mut [u8],
) -> Reply
    ensures { Called sessions mode connection group apdu.now sheet.old answer.old (gave result) sheet.new answer.new }
{
    plain_host::kelindap_plain_request(sessions, sheet, mode, connection, group, apdu, answer)
}
