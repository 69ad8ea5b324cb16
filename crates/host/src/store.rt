// The C interface of the store of versions: the calls of include/kelindap_store.h.
ghost use Rattle.std.specs.Prelude.{◌≡◌};
ghost use Rattle.versions.specs.Rules.{store_rule};
ghost use Rattle.versions.specs.Saving.{SavedAs};
ghost use Rattle.versions.specs.Removing.{Removed};
ghost use Rattle.versions.specs.Kept.{kept_of};
ghost use Rattle.versions.specs.Refusal.{told_done};
ghost use Rattle.host.specs.Calls.{Restores};

use device::Sessions;
use versions::{Listed, Refusal, Saved};

// The outcome of a call that is done or refused, by its number.
fn done(outcome: Result<(), Refusal>) -> u8
    ensures { result ≡ told_done outcome }
{
    match outcome {
        Ok(()) => 1,
        Err(refusal) => refusal.number(),
    }
}

// 0 for a good store, else 30.
pub fn kelindap_store_check(store: &[u8]) -> u8
    ensures { result ≡ store_rule store.now }
{
    match versions::check(store) {
        Ok(()) => 0,
        Err(refusal) => refusal.number(),
    }
}

// The sheet's properties saved under the next number.
pub fn kelindap_save(sheet: &[u8], store: &mut [u8]) -> Saved
    ensures { SavedAs sheet.now store.old result store.new }
{
    Saved::from(versions::save(sheet, store))
}

// The version with a number restored, on behalf of a connection.
pub fn kelindap_restore(
    sessions: Sessions,
    connection: u8,
    sheet: &mut [u8],
    store: &[u8],
    number: usize,
) -> u8
    ensures { Restores sessions connection sheet.old store.now number result sheet.new }
{
    let session = device::session_of(sessions, connection);
    done(versions::restore(session, sheet, store, number))
}

// The version with a number removed.
pub fn kelindap_remove(store: &mut [u8], number: usize) -> u8
    ensures { Removed store.old number result store.new }
{
    done(versions::remove(store, number))
}

// The k-th version that a store keeps, counted from 0.
pub fn kelindap_kept(store: &[u8], k: usize) -> Listed
    ensures { result ≡ kept_of store.now k }
{
    versions::kept(store, k).unwrap_or(Listed { number: 0, long: 0 })
}
