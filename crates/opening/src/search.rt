// The search for true distances, in rising order: a cell gets its distance once, when it is first reached. The cells that have theirs form one queue,
// the nearest first; for each cost that a move can have, a place in the queue says up to where the moves of that cost have been followed.
// One list holds all of it: the entry of a cell is its distance × 8,192 + the next cell of the queue.
ghost use Rattle.std.specs.Prelude.{◌≡◌, ◌+◌, ◌*◌, ◌≤◌, ◌<◌, length, get_or, replicate, Option};
ghost use Rattle.learning.specs.Ground.{list_of};
ghost use Rattle.learning.proofs.Certificate.{Certified};
ghost use Rattle.model.specs.Floor.{Sized, size, goals_of};
ghost use Rattle.model.specs.Grounds.{ground_of};
ghost use Rattle.model.specs.Checks.{Benched};
ghost use Rattle.floor.specs.Moves.{all_kinds, kinds, cost, Placed, step_of};
ghost use Rattle.opening.specs.Distances.{Distances};
ghost use Rattle.opening.specs.Search.{none};
ghost use Rattle.opening.specs.Chain.{links, entry, dist_at, next_at, blank, entered, Entered, Enterable, Follows, Readable, offer_of, Offered, Least, caught, moved_on, last_of, lined, plain};

use answers::Goals;
use floor::{CEILING, Floor, KINDS, PLAIN_KINDS, Spot, Step};

// What stands for a distance where no walk to a goal exists: the ceiling, which is more than any distance.
pub const FAR: u32 = CEILING as u32;

// How many links an entry can tell apart; the link of the queue's last cell, which is no cell; what stands for a distance before a cell has one. (Numbers
// and no Option, since an entry of one list holds both.)
const LINKS: u32 = 8192;

const END: usize = 8191;

const NONE: u32 = 524287;

// An entry: a distance, and the next cell of the queue.
fn entry(v: u32, next: usize) -> u32
    requires { (v ≤ none) × (next < links) }
    ensures { result ≡ entry v next }
{
    v * LINKS + next as u32
}

// The distance of the cell x.
fn dist_at(list: &[u32], x: usize) -> u32
    requires { x < length list.now }
    ensures { (result ≡ dist_at list.now x) × (result ≤ none) }
{
    list[x] / LINKS
}

// The cell after x in the queue.
fn next_at(list: &[u32], x: usize) -> usize
    requires { x < length list.now }
    ensures { result ≡ next_at list.now x }
{
    (list[x] % LINKS) as usize
}

// A cell gets the distance v and goes to the queue's end.
fn enter(list: &mut [u32], last: usize, cell: usize, v: u32)
    requires { (last < length list.old) × (cell < length list.old) × (cell < links) × (v < none) }
    ensures { list.new ≡ entered list.old last cell v }
{
    list[last] = entry(dist_at(list, last), cell);
    list[cell] = entry(v, END);
}

// The cell that a step of this cost leads to gets the distance v, if it has none: the queue's last.
fn reach(step: Option<Step>, cost: u16, v: u32, list: &mut [u32], last: usize) -> usize
    requires { Enterable step v list.old last }
    ensures { Entered step cost v list.old last list.new result }
{
    let Some(step) = step else {
        return last;
    };
    if step.cost != cost || dist_at(list, step.cell) < NONE {
        return last;
    }
    enter(list, last, step.cell, v);
    step.cell
}

// The move m from a cell, if it has the k-th cost: one that cannot have it is passed over without a look at the floor.
fn pass(
    floor: &Floor,
    cell: usize,
    spot: Spot,
    m: usize,
    k: usize,
    v: u32,
    list: &mut [u32],
    last: usize,
) -> usize
    requires placed { Sized floor.now × Placed floor.now cell spot }
    requires one { (m < 8) × (k < all_kinds) }
    requires long { (length list.old ≡ size floor.now) × (last < size floor.now) }
    requires near { v < none }
    ensures { Entered (step_of floor.now cell m) (cost k) v list.old last list.new result }
{
    if !floor::can_cost(m, k) {
        return last;
    }
    let step = floor.step(cell, spot, m);
    reach(step, floor::cost_at(k), v, list, last)
}

// Follows the moves of the k-th cost from a cell: what they reach first has the distance v. The queue's last.
// Only a goal can be blocked, and then no move leads from it. (A long function is made part of its caller only where it has but one: by K, the number of
// costs, each search has its own.)
fn follow<const K: usize>(
    floor: &Floor,
    cell: usize,
    k: usize,
    v: u32,
    list: &mut [u32],
    last: usize,
) -> usize
    requires sized { Sized floor.now }
    requires one { (cell < size floor.now) × (k < all_kinds) }
    requires long { (length list.old ≡ size floor.now) × (last < size floor.now) }
    requires near { v < none }
    ensures { Follows floor.now cell (cost k) v 8 list.old last list.new result }
{
    if !floor.is_free(cell) {
        return last;
    }
    let spot = floor.spot(cell);
    let mut end = last;
    for m in 0..8 {
        end = pass(floor, cell, spot, m, k, v, list, end);
    }
    end
}

// What the moves of the k-th cost reach from a place: the distance there and the cost. NONE at the queue's end.
fn offer(list: &[u32], place: usize, k: usize) -> u32
    requires { Readable list.now place × (k < all_kinds) }
    ensures { result ≡ offer_of list.now place (cost k) }
{
    if place == END {
        return NONE;
    }
    dist_at(list, place) + u32::from(floor::cost_at(k))
}

// Which of two costs has the lesser offer.
fn lesser(list: &[u32], places: &[usize], a: usize, b: usize) -> usize
    requires offered { Offered list.now places.now }
    requires least { (b < length places.now) × Least list.now places.now b a }
    ensures { Least list.now places.now (b + 1) result }
{
    let ours = offer(list, places[a], a);
    let theirs = offer(list, places[b], b);
    if theirs < ours { b } else { a }
}

// The cost of the least offer.
fn least<const K: usize>(list: &[u32], places: &[usize; K]) -> usize
    requires { Offered list.now places.now }
    ensures { Least list.now places.now (length places.now) result }
{
    let mut best = 0;
    for k in 1..K {
        best = lesser(list, places, best, k);
    }
    best
}

// A place that stood at the queue's end stands at the cell that came next.
fn caught(place: usize, next: usize) -> usize
    ensures { result ≡ caught next place }
{
    if place == END { next } else { place }
}

// And so each of the places.
fn catch_up(places: &mut [usize], next: usize)
    ensures { places.new ≡ list_of (length places.old) (λ k. caught next (get_or places.old k 0)) }
{
    for place in places.iter_mut() {
        *place = caught(*place, next);
    }
}

// The places after the k-th cost was followed from its cell: it moves on, and those that stood at the queue's end, behind the last, catch up.
fn move_on(list: &[u32], places: &mut [usize], k: usize, cell: usize, last: usize)
    requires { (k < length places.old) × (cell < length list.now) × (last < length list.now) }
    ensures { places.new ≡ moved_on list.now places.old k cell last }
{
    catch_up(places, next_at(list, last));
    places[k] = next_at(list, cell);
}

// Every goal has the distance 0: they stand in the queue, the first of them first. The last of them.
fn begin(goals: Goals, list: &mut [u32]) -> usize
    requires { Benched (length list.old) (goals_of goals) × (length list.old ≤ links) }
    ensures { (list.new ≡ lined list.old (goals_of goals) (length (goals_of goals))) × (result ≡ last_of (goals_of goals)) }
{
    let mut last = floor::goal_at(goals, 0);
    list[last] = entry(0, END);
    for i in 1..floor::goals_in(goals) {
        let goal = floor::goal_at(goals, i);
        enter(list, last, goal, 0);
        last = goal;
    }
    last
}

// From the goals to every cell that can be reached: the least offer is followed, and its place moves on, until every place is at the queue's end.
// Each of the K costs has a place, at the first goal to begin with; together they take K steps for each cell at most.
fn spread<const K: usize>(floor: &Floor, goals: Goals, list: &mut [u32])
    requires kinds { K ≡ kinds floor.now.bytes }
    requires benched { Benched (size floor.now) (goals_of goals) }
    requires empty { list.old ≡ replicate (size floor.now) blank }
    ensures { Certified (ground_of floor.now (goals_of goals)) none (dist_at list.new) }
{
    let steps = K * floor.cells();
    let mut places = [floor::goal_at(goals, 0); K];
    let mut last = begin(goals, list);
    for _ in 0..steps {
        let k = least(list, &places);
        let cell = places[k];
        if cell == END {
            return;
        }
        let v = offer(list, cell, k);
        let end = follow::<K>(floor, cell, k, v, list, last);
        move_on(list, &mut places, k, cell, last);
        last = end;
    }
}

// From the goals to every cell that can be reached, on whatever floor: its moves have two costs where no cell is slow, else four. (A search for both, with
// as many places as are lent, takes twice the time on a plain floor.)
fn explore(floor: &Floor, goals: Goals, list: &mut [u32])
    requires benched { Benched (size floor.now) (goals_of goals) }
    requires empty { list.old ≡ replicate (size floor.now) blank }
    ensures sized { Sized floor.now }
    ensures certified { Certified (ground_of floor.now (goals_of goals)) none (dist_at list.new) }
{
    if floor::kinds_on(floor.bytes) < KINDS {
        spread::<PLAIN_KINDS>(floor, goals, list);
    } else {
        spread::<KINDS>(floor, goals, list);
    }
}

// A distance, and FAR where there is none.
fn plain(d: u32) -> u32
    ensures { result ≡ plain d }
{
    if d < NONE { d } else { FAR }
}

// Every entry becomes its distance.
fn unpack(list: &mut [u32])
    ensures { list.new ≡ list_of (length list.old) (λ x. plain (dist_at list.old x)) }
{
    for d in list.iter_mut() {
        *d = plain(*d / LINKS);
    }
}

// The true distance of every cell to the nearest goal, and FAR where no walk to one exists.
pub fn find_distances(floor: &Floor, goals: Goals, dist: &mut [u32])
    requires long { length dist.old ≡ size floor.now }
    requires benched { Benched (size floor.now) (goals_of goals) }
    ensures { Distances floor.now (goals_of goals) dist.new }
{
    dist.fill(entry(NONE, END));
    explore(floor, goals, dist);
    unpack(dist);
}
