// The search for true distances exported for the benches, on plain numbers and lists. It stands alone, so that the calls of `probe` are compiled as they are elsewhere.

#![tactic(auto)]

ghost use Rattle.std.specs.Prelude.{◌≡◌, ◌*◌, length};
ghost use Rattle.model.specs.Checks.{Benched};
ghost use Rattle.model.specs.Floor.{Sized, goals_of};
ghost use Rattle.floor.specs.Moves.{flat};

use answers::Goals;
use floor::Floor;

// The true distances to as many goals as the count says, one or two, in the list that is lent: how many.
#[unsafe(no_mangle)]
pub extern "C" fn probe_distances(
    width: usize,
    height: usize,
    count: usize,
    goal: usize,
    other: usize,
    floor: &[u8],
    dist: &mut [u32],
) -> usize
    requires { Sized (flat width height floor.now) × (length dist.old ≡ width * height) × Benched (width * height) (goals_of (record { count = count; first = goal; second = other; third = 0; fourth = 0 })) }
{
    let goals = Goals {
        count,
        first: goal,
        second: other,
        third: 0,
        fourth: 0,
    };
    let floor = Floor {
        width,
        height,
        bytes: floor,
    };
    opening::find_distances(&floor, goals, dist);
    dist.len()
}
