// The ground: the marks of the events of a scene, four bytes each, in the merged order. Point by point, so that the degrees are at hand: of the least key the run of F and that of G are all
// elements that have the point.
ghost use Rattle.std.specs.Prelude.{◌≡◌, ◌+◌, ◌*◌, ◌<◌, ◌≤◌, length};
ghost use Rattle.walk_events.specs.Events.{f_alone, g_alone, of_both, event_of};
ghost use Rattle.walk_events.specs.Portions.{total};
ghost use Rattle.walk_events.specs.Stepping.{step_of};
ghost use Rattle.walk_flags.specs.OneTaken.{side_of};
ghost use Rattle.walk.specs.Ground.{four, event_marks, put, ground_of};
ghost use Rattle.walk.specs.Laying.{TrueOfF, TrueOfG, Room, OneMore, PointFrom, PointAt, Between, RestOfF, RestOfG, Lays};

use check_verdict::taken::NotedScene;
use flags_meetings::pass;
use scene_keys::Cursor;
use scene_segments::Object;
use walk_events::{Event, Step};
use walk_flags::{Degrees, Marks, Side};

// Where the laying stands: so many events are laid, of so many elements of F and of G.
#[derive(Clone, Copy)]
struct Place {
    events: usize,
    i: usize,
    j: usize,
}

// The end of a point: the elements of F and of G that have it are those before these.
#[derive(Clone, Copy)]
struct Ends {
    i: usize,
    j: usize,
}

// The marks of the event n, of its element of F and of that of G.
fn put(ground: &mut [u8], n: usize, of_f: Marks, of_g: Marks)
    requires { 4 * n + 4 ≤ length ground.old }
    ensures { ground.new ≡ put n (four of_f of_g) ground.old }
{
    ground[4 * n..4 * n + 4].copy_from_slice(&[of_f.met, of_f.classes, of_g.met, of_g.classes]);
}

fn side(o: Object<'_>, i: usize) -> Side
    requires { i < o.layout.count }
    ensures { result ≡ side_of o.entry.bytes.now o.entry.layout i }
{
    Side {
        is_left: o.has_segments() && o.half(i).is_left,
        ia: o.ia(i),
    }
}

// ---- one event, whose point has these degrees

// Of F alone.
fn lay_f(noted: NotedScene<'_>, degrees: Degrees, at: Place, ground: &mut [u8]) -> Place
    requires there { at.i < noted.scene.f.count }
    requires degrees { TrueOfF noted.bytes.now noted.scene at.i degrees }
    requires room { 4 * at.events + 4 ≤ length ground.old }
    ensures to { result ≡ record { events = at.events + 1; i = at.i + 1; j = at.j } }
    ensures laid { ground.new ≡ put at.events (event_marks noted.entry.bytes.now noted.entry.scene noted.entry.notes.now (f_alone at.i)) ground.old }
{
    let own = side(noted.taken().read().object(true), at.i);
    let of_f = Marks::alone(degrees, noted.notes.of(true, at.i), own);
    put(ground, at.events, of_f, Marks::NONE);
    Place {
        events: at.events + 1,
        i: at.i + 1,
        j: at.j,
    }
}

// Of G alone.
fn lay_g(noted: NotedScene<'_>, degrees: Degrees, at: Place, ground: &mut [u8]) -> Place
    requires there { at.j < noted.scene.g.count }
    requires degrees { TrueOfG noted.bytes.now noted.scene at.j degrees }
    requires room { 4 * at.events + 4 ≤ length ground.old }
    ensures to { result ≡ record { events = at.events + 1; i = at.i; j = at.j + 1 } }
    ensures laid { ground.new ≡ put at.events (event_marks noted.entry.bytes.now noted.entry.scene noted.entry.notes.now (g_alone at.j)) ground.old }
{
    let own = side(noted.taken().read().object(false), at.j);
    let of_g = Marks::alone(degrees, noted.notes.of(false, at.j), own);
    put(ground, at.events, Marks::NONE, of_g);
    Place {
        events: at.events + 1,
        i: at.i,
        j: at.j + 1,
    }
}

// Of both: the note is that of the element of F.
fn lay_both(noted: NotedScene<'_>, degrees: Degrees, at: Place, ground: &mut [u8]) -> Place
    requires there { (at.i < noted.scene.f.count) × (at.j < noted.scene.g.count) }
    requires degrees { TrueOfF noted.bytes.now noted.scene at.i degrees }
    requires room { 4 * at.events + 4 ≤ length ground.old }
    ensures to { result ≡ record { events = at.events + 1; i = at.i + 1; j = at.j + 1 } }
    ensures laid { ground.new ≡ put at.events (event_marks noted.entry.bytes.now noted.entry.scene noted.entry.notes.now (of_both at.i at.j)) ground.old }
{
    let read = noted.taken().read();
    let f = side(read.object(true), at.i);
    let g = side(read.object(false), at.j);
    let note = noted.notes.of(true, at.i);
    let of_f = Marks::of_both(degrees, note, f, g);
    let of_g = Marks::of_both(degrees, note, g, f);
    put(ground, at.events, of_f, of_g);
    Place {
        events: at.events + 1,
        i: at.i + 1,
        j: at.j + 1,
    }
}

// ---- one point

// Which comes next, of an element of each.
fn next(noted: NotedScene<'_>, at: Place) -> Step
    requires { (at.i < noted.scene.f.count) × (at.j < noted.scene.g.count) }
    ensures { result ≡ step_of (event_of noted.entry.bytes.now noted.entry.scene.f at.i) (event_of noted.entry.bytes.now noted.entry.scene.g at.j) }
{
    let read = noted.taken().read();
    let f = Event::of(read.object(true), at.i);
    let g = Event::of(read.object(false), at.j);
    walk_events::first(f, g)
}

// The next event, of a point that an element of each has.
fn lay_next(noted: NotedScene<'_>, degrees: Degrees, at: Place, ground: &mut [u8]) -> Place
    requires there { (at.i < noted.scene.f.count) × (at.j < noted.scene.g.count) }
    requires degrees { TrueOfF noted.bytes.now noted.scene at.i degrees × TrueOfG noted.bytes.now noted.scene at.j degrees }
    requires room { Room noted.scene at ground.old }
    ensures more { OneMore at result }
    ensures laid { Lays noted.entry.bytes.now noted.entry.scene noted.entry.notes.now at ground.old result ground.new }
{
    match next(noted, at) {
        Step::OfF => lay_f(noted, degrees, at, ground),
        Step::OfG => lay_g(noted, degrees, at, ground),
        Step::OfBoth => lay_both(noted, degrees, at, ground),
    }
}

// As long as both have elements at the point.
fn lay_merged(
    noted: NotedScene<'_>,
    degrees: Degrees,
    from: Place,
    to: Ends,
    ground: &mut [u8],
) -> Place
    requires point { PointAt noted.bytes.now noted.scene degrees from to }
    requires room { Room noted.scene from ground.old }
    ensures between { Between from result to }
    ensures one_ends { result.i < to.i → result.j ≡ to.j }
    ensures few { result.events ≤ result.i + result.j }
    ensures laid { Lays noted.entry.bytes.now noted.entry.scene noted.entry.notes.now from ground.old result ground.new }
{
    let mut at = from;
    while at.i < to.i && at.j < to.j {
        at = lay_next(noted, degrees, at, ground);
    }
    at
}

// What is left of F, where all that is left of G has later points.
fn lay_rest_of_f(
    noted: NotedScene<'_>,
    degrees: Degrees,
    from: Place,
    to: usize,
    ground: &mut [u8],
) -> Place
    requires rest { RestOfF noted.bytes.now noted.scene degrees from to }
    requires room { Room noted.scene from ground.old }
    ensures to { (result.i ≡ to) × (result.j ≡ from.j) }
    ensures few { result.events ≤ result.i + result.j }
    ensures laid { Lays noted.entry.bytes.now noted.entry.scene noted.entry.notes.now from ground.old result ground.new }
{
    let mut at = from;
    while at.i < to {
        at = lay_f(noted, degrees, at, ground);
    }
    at
}

// What is left of G, where all that is left of F has later points.
fn lay_rest_of_g(
    noted: NotedScene<'_>,
    degrees: Degrees,
    from: Place,
    to: usize,
    ground: &mut [u8],
) -> Place
    requires rest { RestOfG noted.bytes.now noted.scene degrees from to }
    requires room { Room noted.scene from ground.old }
    ensures to { (result.i ≡ from.i) × (result.j ≡ to) }
    ensures few { result.events ≤ result.i + result.j }
    ensures laid { Lays noted.entry.bytes.now noted.entry.scene noted.entry.notes.now from ground.old result ground.new }
{
    let mut at = from;
    while at.j < to {
        at = lay_g(noted, degrees, at, ground);
    }
    at
}

// The events of a point.
fn lay_point(noted: NotedScene<'_>, from: Place, to: Ends, ground: &mut [u8]) -> Place
    requires point { PointFrom noted.bytes.now noted.scene from to }
    requires room { Room noted.scene from ground.old }
    ensures to { (result.i ≡ to.i) × (result.j ≡ to.j) }
    ensures few { result.events ≤ result.i + result.j }
    ensures laid { Lays noted.entry.bytes.now noted.entry.scene noted.entry.notes.now from ground.old result ground.new }
{
    let degrees = Degrees {
        f: to.i - from.i,
        g: to.j - from.j,
    };
    let merged = lay_merged(noted, degrees, from, to, ground);
    let of_f = lay_rest_of_f(noted, degrees, merged, to.i, ground);
    lay_rest_of_g(noted, degrees, of_f, to.j, ground)
}

// All events of a scene; how many they are.
pub fn lay(noted: NotedScene<'_>, ground: &mut [u8]) -> usize
    requires { 4 * (noted.scene.f.count + noted.scene.g.count) ≤ length ground.old }
    ensures is { result ≡ total noted.entry.bytes.now noted.entry.scene }
    ensures ground { ground.new ≡ ground_of noted.entry.bytes.now noted.entry.scene noted.entry.notes.now ground.old }
{
    let read = noted.taken().read();
    let mut c = Cursor::first(read.object(true));
    let mut d = Cursor::first(read.object(false));
    let mut at = Place {
        events: 0,
        i: 0,
        j: 0,
    };
    let mut k = c.key.min(d.key);
    while k < scene_keys::TOP {
        pass(&mut c, k);
        pass(&mut d, k);
        let to = Ends {
            i: c.index,
            j: d.index,
        };
        at = lay_point(noted, at, to, ground);
        k = c.key.min(d.key);
    }
    at.events
}
