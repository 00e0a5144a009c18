// A member of a collapse in its parts: its first p letters, and the others where it is long, has more than p.
ghost use Rattle.std.specs.Prelude.{◌+◌, ◌^◌, ◌≤◌, ◌<◌, ◌≡◌, true, cond};
ghost use Rattle.handle.specs.Handle.{max_id};
ghost use Rattle.merging.specs.Plan.{prefix_if, suffix_by};

use handle::Handle;

// The next fresh id: one more after a long member.
pub fn fresh_after(fresh: u64, long: bool) -> u64
    requires { long ≡ true → fresh + 1 < 2 ^ 64 }
    ensures { result ≡ cond long (fresh + 1) fresh }
{
    if long {
        return fresh + 1;
    }
    fresh
}

// The oriented node of its first p letters.
pub fn prefix_of(long: bool, fresh: u64, m: Handle) -> Handle
    requires { long ≡ true → fresh ≤ max_id }
    ensures { result ≡ prefix_if long fresh m }
{
    if !long {
        return m;
    }
    if m.direction() == Handle::FORWARD {
        return m;
    }
    Handle::reverse(fresh)
}

// The oriented node of a long member's other letters.
pub fn suffix_of(fresh: u64, m: Handle) -> Handle
    requires { fresh ≤ max_id }
    ensures { result ≡ suffix_by fresh m }
{
    if m.direction() == Handle::FORWARD {
        return Handle::forward(fresh);
    }
    m
}
