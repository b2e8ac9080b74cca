//! Worked histories of players and cups.
use crate::cups::{ADD, DROP, ENROLL, FORGET, REMOVE};
use crate::telling::{So, Story, first_untrue};
use ipa_history::Reason;
use ipa_logic::{Broken, Fact};
use ipa_spec::Pick;
use std::test::Fail;

/// That the first player is known.
const ANN_KNOWN: Fact = Fact {
    predicate: 0,
    args: [0, 0, 0],
};

/// That the second player is known.
const BOB_KNOWN: Fact = Fact {
    predicate: 0,
    args: [1, 0, 0],
};

/// That the first player is enrolled in the first cup.
const ANN_ENROLLED: Fact = Fact {
    predicate: 1,
    args: [0, 0, 0],
};

/// That the second player is enrolled there.
const BOB_ENROLLED: Fact = Fact {
    predicate: 1,
    args: [1, 0, 0],
};

/// That the first player is enrolled in the second cup.
const ANN_ELSEWHERE: Fact = Fact {
    predicate: 1,
    args: [0, 1, 0],
};

/// The clause, at the first player and the first cup.
const FIRST: Broken = Broken {
    clause: 0,
    values: [0; 4],
};

/// Two adds of a player, each removed by an origin that did not see the other add; two others, who each saw one
/// removal and both adds, enrol the player. All six are legal, and together they leave the enrolment alone.
const JOINT_REMOVAL: Story = Story {
    pick: Pick::Greatest,
    start: &[],
    legal: true,
    moves: &[
        (0, [0, 0, 0, 0, 0, 0], ADD, [0, 0]),
        (1, [0, 0, 0, 0, 0, 0], ADD, [0, 0]),
        (2, [1, 0, 0, 0, 0, 0], REMOVE, [0, 0]),
        (3, [0, 1, 0, 0, 0, 0], REMOVE, [0, 0]),
        (4, [1, 1, 0, 1, 0, 0], ENROLL, [0, 0]),
        (5, [1, 1, 1, 0, 0, 0], ENROLL, [0, 0]),
    ],
    so: &[
        So::State([1, 1, 0, 1, 1, 0], &[ANN_KNOWN, ANN_ENROLLED]),
        So::State([1, 1, 1, 1, 1, 1], &[ANN_ENROLLED]),
        So::Broken([1, 1, 0, 1, 1, 0], None),
        So::Broken([1, 1, 1, 1, 1, 1], Some(FIRST)),
    ],
};

/// Two that meet are enough, where their actions conflict: each keeps the clause at its own cut.
const MEETING: Story = Story {
    pick: Pick::Greatest,
    start: &[ANN_KNOWN],
    legal: true,
    moves: &[
        (0, [0, 0, 0, 0, 0, 0], ENROLL, [0, 0]),
        (1, [0, 0, 0, 0, 0, 0], FORGET, [0, 0]),
    ],
    so: &[
        So::Broken([1, 0, 0, 0, 0, 0], None),
        So::Broken([0, 1, 0, 0, 0, 0], None),
        So::Broken([1, 1, 0, 0, 0, 0], Some(FIRST)),
    ],
};

/// A cut that is not closed may break a clause: here an enrolment is known without the player, whom it had seen.
const OPEN_CUT: Story = Story {
    pick: Pick::Greatest,
    start: &[],
    legal: true,
    moves: &[
        (0, [0, 0, 0, 0, 0, 0], ADD, [0, 0]),
        (1, [1, 0, 0, 0, 0, 0], ENROLL, [0, 0]),
    ],
    so: &[
        So::Broken([1, 1, 0, 0, 0, 0], None),
        So::Broken([0, 1, 0, 0, 0, 0], Some(FIRST)),
    ],
};

/// Nobody knows the player, so the enrolment is not legal.
const UNKNOWN: Story = Story {
    pick: Pick::Greatest,
    start: &[],
    legal: true,
    moves: &[],
    so: &[So::Next((0, [0; 6], ENROLL, [0, 0]), Some(Reason::Need(0)))],
};

/// So may a history that is not legal break a clause.
const UNLAWFUL: Story = Story {
    pick: Pick::Greatest,
    start: &[],
    legal: false,
    moves: &[(0, [0, 0, 0, 0, 0, 0], ENROLL, [0, 0])],
    so: &[So::Broken([1, 0, 0, 0, 0, 0], Some(FIRST))],
};

/// Two players enrolled in one cup at once: two origins each drop the greater one, and nobody the lesser. Each reason
/// comes first where it holds, and requests are answered at a cut.
const RACING_DROPS: Story = Story {
    pick: Pick::Greatest,
    start: &[ANN_KNOWN, BOB_KNOWN],
    legal: true,
    moves: &[
        (0, [0, 0, 0, 0, 0, 0], ENROLL, [0, 0]),
        (1, [0, 0, 0, 0, 0, 0], ENROLL, [1, 0]),
        (0, [1, 1, 0, 0, 0, 0], DROP, [1, 0]),
        (1, [1, 1, 0, 0, 0, 0], DROP, [1, 0]),
    ],
    so: &[
        So::State(
            [1, 1, 0, 0, 0, 0],
            &[ANN_KNOWN, BOB_KNOWN, ANN_ENROLLED, BOB_ENROLLED],
        ),
        So::State([2, 1, 0, 0, 0, 0], &[ANN_KNOWN, BOB_KNOWN, ANN_ENROLLED]),
        So::State([2, 2, 0, 0, 0, 0], &[ANN_KNOWN, BOB_KNOWN, ANN_ENROLLED]),
        So::Next(
            (2, [1, 1, 0, 0, 0, 0], ENROLL, [2, 0]),
            Some(Reason::NotWithin(0)),
        ),
        So::Next(
            (2, [1, 1, 0, 0, 0, 0], DROP, [0, 0]),
            Some(Reason::NotTheDrop),
        ),
        So::Next((2, [1, 1, 0, 0, 0, 0], DROP, [1, 0]), None),
        So::Next(
            (2, [2, 2, 0, 0, 0, 0], DROP, [0, 0]),
            Some(Reason::NotTheDrop),
        ),
        So::Next(
            (2, [2, 2, 0, 0, 0, 0], ENROLL, [2, 0]),
            Some(Reason::Need(0)),
        ),
        So::Next(
            (2, [2, 2, 0, 0, 0, 0], FORGET, [0, 0]),
            Some(Reason::Clause(FIRST)),
        ),
        So::Next(
            (2, [2, 2, 0, 0, 0, 0], ENROLL, [1, 0]),
            Some(Reason::Over(0)),
        ),
        So::Next((2, [2, 2, 0, 0, 0, 0], ENROLL, [1, 1]), None),
        So::Shown([2, 2, 0, 0, 0, 0], 2, Some(0), &[ANN_ENROLLED]),
        So::Shown([2, 2, 0, 0, 0, 0], 2, None, &[ANN_ENROLLED]),
        So::Shown([2, 2, 0, 0, 0, 0], 2, Some(1), &[]),
        So::Forgotten([2, 2, 0, 0, 0, 0], 2, 1, Some(1)),
        So::Forgotten([2, 2, 0, 0, 0, 0], 1, 1, Some(3)),
        So::Forgotten([2, 2, 0, 0, 0, 0], 1, 0, None),
    ],
};

/// Where the bound picks the youngest fact, the enrolment of the transaction that had seen more is dropped, and of two
/// that had seen equally much the one of the greater origin: here the second player's in the first cup, and the first
/// player's in the second.
const YOUNGEST: Story = Story {
    pick: Pick::Youngest,
    start: &[ANN_KNOWN, BOB_KNOWN],
    legal: true,
    moves: &[
        (0, [0, 0, 0, 0, 0, 0], ENROLL, [0, 0]),
        (1, [0, 0, 0, 0, 0, 0], ENROLL, [1, 0]),
        (2, [0, 0, 0, 0, 0, 0], ADD, [0, 0]),
        (3, [0, 0, 1, 0, 0, 0], ENROLL, [0, 1]),
        (4, [0, 0, 0, 0, 0, 0], ENROLL, [1, 1]),
    ],
    so: &[
        So::Next((5, [1, 1, 0, 0, 0, 0], DROP, [1, 0]), None),
        So::Next(
            (5, [1, 1, 0, 0, 0, 0], DROP, [0, 0]),
            Some(Reason::NotTheDrop),
        ),
        So::Next((5, [0, 0, 1, 1, 1, 0], DROP, [0, 1]), None),
        So::Next(
            (5, [0, 0, 1, 1, 1, 0], DROP, [1, 1]),
            Some(Reason::NotTheDrop),
        ),
    ],
};

/// The same with the two players in each other's place.
const YOUNGEST_TURNED: Story = Story {
    pick: Pick::Youngest,
    start: &[ANN_KNOWN, BOB_KNOWN],
    legal: true,
    moves: &[
        (0, [0, 0, 0, 0, 0, 0], ENROLL, [1, 0]),
        (1, [0, 0, 0, 0, 0, 0], ENROLL, [0, 0]),
        (2, [0, 0, 0, 0, 0, 0], ADD, [0, 0]),
        (3, [0, 0, 1, 0, 0, 0], ENROLL, [1, 1]),
        (4, [0, 0, 0, 0, 0, 0], ENROLL, [0, 1]),
    ],
    so: &[
        So::Next((5, [1, 1, 0, 0, 0, 0], DROP, [0, 0]), None),
        So::Next(
            (5, [1, 1, 0, 0, 0, 0], DROP, [1, 0]),
            Some(Reason::NotTheDrop),
        ),
        So::Next((5, [0, 0, 1, 1, 1, 0], DROP, [1, 1]), None),
        So::Next(
            (5, [0, 0, 1, 1, 1, 0], DROP, [0, 1]),
            Some(Reason::NotTheDrop),
        ),
    ],
};

/// A removal of all enrolments also removes one that is added later in the list, by somebody who has not seen it; an
/// add of the player that has not seen it prevails.
const WILDCARD: Story = Story {
    pick: Pick::Greatest,
    start: &[ANN_KNOWN],
    legal: true,
    moves: &[
        (0, [0, 0, 0, 0, 0, 0], ENROLL, [0, 0]),
        (1, [1, 0, 0, 0, 0, 0], REMOVE, [0, 0]),
        (2, [1, 0, 0, 0, 0, 0], ENROLL, [0, 1]),
        (3, [1, 0, 0, 0, 0, 0], ADD, [0, 0]),
    ],
    so: &[
        So::State(
            [1, 0, 1, 0, 0, 0],
            &[ANN_KNOWN, ANN_ENROLLED, ANN_ELSEWHERE],
        ),
        So::State([1, 1, 1, 0, 0, 0], &[]),
        So::State([1, 1, 1, 1, 0, 0], &[ANN_KNOWN]),
    ],
};

#[test]
fn joint_removal_leaves_an_enrolment_alone(rt: HostRuntime) -> Result<(), Fail> {
    assert!(rt; first_untrue(rt.alloc(), &JOINT_REMOVAL)?.is_none());
    Ok(())
}

#[test]
fn two_that_meet_break_a_clause(rt: HostRuntime) -> Result<(), Fail> {
    assert!(rt; first_untrue(rt.alloc(), &MEETING)?.is_none());
    Ok(())
}

#[test]
fn a_cut_that_is_not_closed_breaks_a_clause(rt: HostRuntime) -> Result<(), Fail> {
    assert!(rt; first_untrue(rt.alloc(), &OPEN_CUT)?.is_none());
    Ok(())
}

#[test]
fn an_operation_that_is_not_legal_breaks_a_clause(rt: HostRuntime) -> Result<(), Fail> {
    assert!(rt; first_untrue(rt.alloc(), &UNKNOWN)?.is_none());
    assert!(rt; first_untrue(rt.alloc(), &UNLAWFUL)?.is_none());
    Ok(())
}

#[test]
fn racing_drops_drop_one_player(rt: HostRuntime) -> Result<(), Fail> {
    assert!(rt; first_untrue(rt.alloc(), &RACING_DROPS)?.is_none());
    Ok(())
}

#[test]
fn the_youngest_is_dropped(rt: HostRuntime) -> Result<(), Fail> {
    assert!(rt; first_untrue(rt.alloc(), &YOUNGEST)?.is_none());
    assert!(rt; first_untrue(rt.alloc(), &YOUNGEST_TURNED)?.is_none());
    Ok(())
}

#[test]
fn a_wildcard_removes_what_has_not_seen_it(rt: HostRuntime) -> Result<(), Fail> {
    assert!(rt; first_untrue(rt.alloc(), &WILDCARD)?.is_none());
    Ok(())
}
