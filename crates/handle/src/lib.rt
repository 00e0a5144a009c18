// The oriented node, and a link's two ends in their written form.
#![tactic(auto)]

ghost use Rattle.std.specs.Prelude.{◌≡◌, ◌≤◌};
ghost use Rattle.handle.specs.Handle.{max_id, pack, id_of, dir_of, flip, is_handle, same_handle, before};
ghost use Rattle.handle.specs.Edge.{edge, turned, both_forward, written, same_ends, same_link, edge_before};

// The order of packed numbers is the order of ids, forward before reverse.
#[derive(Clone, Copy, PartialEq, Eq, PartialOrd, Ord)]
pub struct Handle {
    pub packed: u64,
}

impl Handle {
    // 01 names the form: the type's own constants for the two directions.
    pub const FORWARD: u64 = 0;

    pub const REVERSE: u64 = 1;

    pub const MAX_ID: u64 = 4294967295;

    pub fn pack(id: u64, direction: u64) -> Self
        requires { (id ≤ max_id) × (direction ≤ 1) }
        ensures { result ≡ pack id direction }
    {
        Self {
            packed: id * 2 + direction,
        }
    }

    pub fn forward(id: u64) -> Self
        requires { id ≤ max_id }
        ensures { result ≡ pack id 0 }
    {
        Self::pack(id, Self::FORWARD)
    }

    pub fn reverse(id: u64) -> Self
        requires { id ≤ max_id }
        ensures { result ≡ pack id 1 }
    {
        Self::pack(id, Self::REVERSE)
    }

    pub fn id(self) -> u64
        ensures { result ≡ id_of self }
    {
        self.packed / 2
    }

    pub fn direction(self) -> u64
        ensures { result ≡ dir_of self }
    {
        self.packed % 2
    }

    pub fn flip(self) -> Self
        ensures { result ≡ flip self }
    {
        Self {
            packed: self.packed / 2 * 2 + (Self::REVERSE - self.packed % 2),
        }
    }

    // Whether the number is one of an oriented node: its id is in range.
    pub fn is_handle(self) -> bool
        ensures { result ≡ is_handle self }
    {
        let id = self.packed / 2;
        1 <= id && id <= Self::MAX_ID
    }

    // What `==` and `<` say, in the words of the definitions.
    pub fn same(self, other: Handle) -> bool
        ensures { result ≡ same_handle self other }
    {
        self == other
    }

    pub fn before(self, other: Handle) -> bool
        ensures { result ≡ before self other }
    {
        self < other
    }
}

#[derive(Clone, Copy, PartialEq, Eq, PartialOrd, Ord)]
pub struct Edge {
    pub from: Handle,
    pub to: Handle,
}

impl Edge {
    pub fn turned(self) -> Self
        ensures { result ≡ turned self }
    {
        let u = self.from;
        let v = self.to;
        Edge {
            from: v.flip(),
            to: u.flip(),
        }
    }

    fn both_forward(self) -> bool
        ensures { result ≡ both_forward self }
    {
        let u = self.from;
        let v = self.to;
        u.direction() == Handle::FORWARD && v.direction() == Handle::FORWARD
    }

    // The written form of the link from u to v.
    pub fn written(u: Handle, v: Handle) -> Self
        ensures { result ≡ written (edge u v) }
    {
        let e = Edge { from: u, to: v };
        if e.both_forward() {
            return e;
        }
        let t = e.turned();
        if t.both_forward() {
            return t;
        }
        let first = t.from;
        if u.id() <= first.id() {
            return e;
        }
        t
    }

    // What `==` says, in the words of the definitions.
    pub fn same(self, other: Edge) -> bool
        ensures { result ≡ same_ends self other }
    {
        self == other
    }

    // Whether the two are one link, in either form.
    pub fn same_link(self, other: Edge) -> bool
        ensures { result ≡ same_link self other }
    {
        self == other || self.turned() == other
    }

    // 01's order of written links is the derived one: by the first end, then by the second.
    pub fn before(self, later: Edge) -> bool
        ensures { result ≡ edge_before self later }
    {
        self < later
    }
}
