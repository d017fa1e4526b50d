use crate::plan::Act::{Assert, Call, Loop, Rest, Send};
use crate::plan::{FuncPlan, Plan};

/// A public function without annotations, which nothing overrides.
const F: FuncPlan<'static> = FuncPlan {
    name: "f",
    owner: 0,
    public: true,
    top: true,
    pre: 0,
    post: 0,
    uses: &[],
    body: &[],
};

/// A contract without bases, invariants and functions.
const C: Plan<'static> = Plan {
    name: "C",
    owners: &["C"],
    invariants: 0,
    ctor: &[],
    mods: &[],
    funcs: &[],
};

const GIVE: FuncPlan<'static> = FuncPlan { name: "give", ..F };

/// A bank that sends before it subtracts, without a lock and with one.
const BANK: Plan<'static> = Plan {
    name: "Bank",
    invariants: 1,
    funcs: &[
        GIVE,
        FuncPlan {
            name: "take",
            body: &[Send(7, 9)],
            ..F
        },
    ],
    ..C
};

const LOCKED: Plan<'static> = Plan {
    mods: &[&[Rest]],
    funcs: &[
        GIVE,
        FuncPlan {
            name: "take",
            uses: &[0],
            body: &[Send(8, 9)],
            ..F
        },
    ],
    ..BANK
};

/// Two storage pointers that may be one.
const POINTERS: Plan<'static> = Plan {
    name: "P",
    funcs: &[FuncPlan {
        body: &[Assert(9, 9)],
        ..F
    }],
    ..C
};

/// A diamond with `super`: of four definitions of one function each calls the one before it.
const DIAMOND: Plan<'static> = Plan {
    name: "D",
    owners: &["A", "B", "C", "D"],
    invariants: 4,
    funcs: &[
        FuncPlan { top: false, ..F },
        FuncPlan {
            owner: 1,
            top: false,
            body: &[Call(4, 85, 0)],
            ..F
        },
        FuncPlan {
            owner: 2,
            top: false,
            post: 1,
            body: &[Call(9, 51, 1)],
            ..F
        },
        FuncPlan {
            owner: 3,
            post: 1,
            body: &[Call(15, 49, 2)],
            ..F
        },
    ],
    ..C
};

/// A public function with a precondition and a postcondition.
const SETTER: Plan<'static> = Plan {
    name: "Q",
    invariants: 1,
    funcs: &[FuncPlan {
        name: "set",
        pre: 1,
        post: 1,
        ..F
    }],
    ..C
};

/// A loop with an invariant, and one without.
const LOOP: Plan<'static> = Plan {
    name: "R",
    funcs: &[
        FuncPlan {
            post: 1,
            body: &[Loop(5, 9, 1)],
            ..F
        },
        FuncPlan {
            name: "g",
            post: 1,
            body: &[Loop(4, 9, 0)],
            ..F
        },
    ],
    ..C
};

/// A function that calls an internal one with a precondition.
const INNER: Plan<'static> = Plan {
    name: "I",
    funcs: &[
        FuncPlan {
            body: &[Call(3, 36, 1)],
            ..F
        },
        FuncPlan {
            name: "g",
            public: false,
            pre: 1,
            post: 1,
            ..F
        },
    ],
    ..C
};

/// Checks of a modifier that is used twice, of two calls in reverse, of a number that names no function, and of a constructor.
const MORE: Plan<'static> = Plan {
    name: "M",
    invariants: 2,
    ctor: &[Assert(7, 9)],
    mods: &[&[Assert(2, 30), Rest], &[Rest, Send(3, 40)]],
    funcs: &[
        FuncPlan {
            name: "receive",
            uses: &[0, 0, 1],
            ..F
        },
        FuncPlan {
            name: "fallback",
            body: &[Call(9, 20, 2), Call(9, 9, 2), Call(9, 30, 7)],
            ..F
        },
        FuncPlan {
            name: "inner",
            public: false,
            pre: 2,
            body: &[Assert(5, 5), Assert(5, 5)],
            ..F
        },
    ],
    ..C
};

pub const ROWS: [&Plan<'static>; 8] = [
    &BANK, &LOCKED, &POINTERS, &DIAMOND, &SETTER, &LOOP, &INNER, &MORE,
];
