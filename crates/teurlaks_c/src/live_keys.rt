// Which keys are live, for a caller that keeps what they stand for.
ghost use Rattle.std.specs.Prelude.{◌≡◌, IsSome, None};
ghost use Rattle.teurlaks_c.specs.Calls.{Contains, GetsKey, SaysLive};
ghost use Rattle.teurlaks_c.specs.Status.{no_core};

use crate::calls::or_no_core;
use crate::handle::Handle;
use crate::keys::key_of;
use crate::replies::RawKey;
use crate::status::{NO_CORE, NONE, OK};
use span::names::Key;

/// Whether the key is live: `OK` where it is, else `NONE`. Nothing changes, and no word of its
/// object is read.
#[unsafe(no_mangle)]
pub extern "C" fn teurlaks_contains(handle: &mut Handle, key: RawKey) -> u32
    ensures live { IsSome handle.old.held → Contains handle.old.held key result handle.new.held }
    ensures none { handle.old.held ≡ None → (result ≡ no_core) × (handle.new.held ≡ None) }
{
    let Some(key) = key_of(key) else {
        return or_no_core(NONE, handle);
    };
    contains(handle, &key)
}

// The core is asked whether the key is live.
#[inline(always)]
fn contains(handle: &mut Handle, key: &Key) -> u32
    ensures live { IsSome handle.old.held → GetsKey handle.old.held key.now (SaysLive result)
        handle.new.held }
    ensures none { handle.old.held ≡ None → (result ≡ no_core) × (handle.new.held ≡ None) }
{
    let Some(held) = handle.held() else {
        return NO_CORE;
    };
    if held.core.get(key).is_some() {
        OK
    } else {
        NONE
    }
}
