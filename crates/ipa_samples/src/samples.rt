//! The samples, by their names.
use crate::{admins, cups, enrolments, small, thin, tournament};

/// A document that was worked out by hand. What contracts see of a sample is its name alone, and no text, so that
/// proofs about its users stay short.
#[derive(Clone, Copy, Debug, PartialEq, Eq)]
pub enum Sample {
    /// No bytes.
    Nothing,
    /// A cup may not be active and finished, and two replicas can begin and finish it.
    ExclusiveCup,
    /// The exclusive cup where removal of active wins.
    ExclusiveCupRemoved,
    /// Two cups, of which one is begun, and a session that finishes it.
    BegunCup,
    /// Who is enrolled is known, and three operations break that together.
    Enrolment,
    /// The enrolment that makes its player known.
    EnrolmentMended,
    /// The enrolment where removal of enrolled wins: two removals at once are left.
    JointRemoval,
    /// The enrolment where every removal wins.
    EnrolmentAllRemoved,
    /// The enrolment with an add of every element.
    EnrolmentWild,
    /// The enrolment with a base that breaks its clause.
    EnrolmentBase,
    /// A player can be removed with all enrolments, or moved to another cup.
    Moves,
    /// Three bounds, of which the second counts the place in the middle.
    Seats,
    /// Two players are in one cup only while it is active: three players, of whom two are in one.
    TwoInACup,
    /// The same with forty players, of whom three are known, and one of these is in a cup.
    FarApart,
    /// The tournament in its canonical text: players, cups and matches, with all that an application has.
    Tournament,
    /// A clause about one account, which is a constant: three conflicts.
    Admins,
    /// The admins where locking the account adds what it relies on.
    AdminsMended,
    /// A bound that picks the youngest fact.
    Youngest,
    /// Two nodes may not both be leader.
    Leader,
    /// A drop takes a player out of a cup who is in a match of it.
    Matches,
    /// Three operations that add one each of three facts, not all of which may be true.
    ThreeWay,
    /// A triple of 21147 patterns.
    Narrow,
    /// A triple of 41209 patterns.
    Wide,
    /// A triple of 41209 patterns behind a conflict.
    CupBeforeWide,
    /// Each form of a literal.
    Literals,
    /// A clause without variables that wants a fact.
    Ajar,
    /// The same, with a base that has the fact.
    Opened,
    /// An add that no kept state has.
    Forbidden,
    /// A fact beside its opposite.
    Opposites,
    /// An add beside a remove of one fact.
    Flip,
    /// A need that its own effects touch.
    Touched,
    /// A literal that nothing makes false.
    Unfalsified,
    /// A literal that a third operation makes false.
    Falsified,
}

impl Sample {
    /// The text of the document, without the setup that `setup` adds.
    pub fn text(self) -> &'static str {
        match self {
            Sample::Nothing => "",
            Sample::ExclusiveCup => cups::EXCLUSIVE_CUP,
            Sample::ExclusiveCupRemoved => cups::EXCLUSIVE_CUP_REMOVED,
            Sample::BegunCup => cups::BEGUN_CUP,
            Sample::Enrolment => enrolments::ENROLMENT,
            Sample::EnrolmentMended => enrolments::ENROLMENT_MENDED,
            Sample::JointRemoval => enrolments::JOINT_REMOVAL,
            Sample::EnrolmentAllRemoved => enrolments::ENROLMENT_ALL_REMOVED,
            Sample::EnrolmentWild => enrolments::ENROLMENT_WILD,
            Sample::EnrolmentBase => enrolments::ENROLMENT_BASE,
            Sample::Moves => enrolments::MOVES,
            Sample::Seats => enrolments::SEATS,
            Sample::TwoInACup | Sample::FarApart => enrolments::SINGLES,
            Sample::Tournament => tournament::TOURNAMENT,
            _ => self.small_text(),
        }
    }

    // The text of a small application.
    fn small_text(self) -> &'static str {
        match self {
            Sample::Admins => admins::ADMINS,
            Sample::AdminsMended => admins::ADMINS_MENDED,
            Sample::Youngest => admins::YOUNGEST,
            Sample::Leader => small::LEADER,
            Sample::Matches => small::MATCHES,
            Sample::ThreeWay => small::THREE_WAY,
            Sample::Narrow => small::NARROW,
            Sample::Wide => small::WIDE,
            Sample::CupBeforeWide => small::CUP_BEFORE_WIDE,
            Sample::Literals => small::LITERALS,
            Sample::Ajar => small::AJAR,
            Sample::Opened => small::OPENED,
            Sample::Forbidden => thin::FORBIDDEN,
            Sample::Opposites => thin::OPPOSITES,
            Sample::Flip => thin::FLIP,
            Sample::Touched => thin::TOUCHED,
            Sample::Unfalsified => thin::UNFALSIFIED,
            Sample::Falsified => thin::FALSIFIED,
            _ => "",
        }
    }

    /// The setup lines that follow the text where samples share it.
    pub fn setup(self) -> &'static str {
        match self {
            Sample::TwoInACup => enrolments::TWO_IN_A_CUP,
            Sample::FarApart => enrolments::FAR_APART,
            _ => "",
        }
    }

    /// What `check` prints of the document: that it is accepted, its report, or why it is refused.
    pub fn printed(self) -> &'static str {
        match self {
            Sample::ExclusiveCup => cups::EXCLUSIVE_CUP_REPORT,
            Sample::Enrolment => enrolments::ENROLMENT_REPORT,
            Sample::JointRemoval => enrolments::JOINT_REMOVAL_REPORT,
            Sample::EnrolmentWild => "refused: line 12: wild add\n",
            Sample::EnrolmentBase => "refused: line 16: base clause c1(ann,open)\n",
            Sample::Admins => admins::ADMINS_REPORT,
            Sample::Leader => small::LEADER_REPORT,
            Sample::Matches => small::MATCHES_REPORT,
            Sample::Wide | Sample::CupBeforeWide => "refused: too wide put put k 41209\n",
            Sample::Ajar => "refused: line 2: base clause ajar()\n",
            Sample::Flip => thin::FLIP_REPORT,
            Sample::Touched => thin::TOUCHED_REPORT,
            Sample::Falsified => thin::FALSIFIED_REPORT,
            _ => "accepted\n",
        }
    }
}
