//! Players who are known, and enrolled in cups.

/// Who is enrolled is known, and three operations break that together.
pub(super) const ENROLMENT: &str = "\
sort player
sort cup
pred known(player) addwins
pred enrolled(player,cup) addwins
clause c1(p:player,t:cup): not enrolled(p,t) or known(p)
op add_player(p:player)
add known(p)
op rem_player(p:player)
del known(p)
op enroll(p:player,t:cup)
need known(p)
add enrolled(p,t)
";

/// The three conflicts of the enrolment.
pub(super) const ENROLMENT_REPORT: &str = "\
conflict rem_player(player#1) enroll(player#1,cup#1) breaks c1(player#1,cup#1)
  after left: none
  after right: known(player#1) enrolled(player#1,cup#1)
  lost: not enrolled(player#1,cup#1)
  hidden: none
conflict enroll(player#1,cup#1) rem_player(player#1) breaks c1(player#1,cup#1)
  after left: known(player#1) enrolled(player#1,cup#1)
  after right: none
  lost: known(player#1)
  hidden: none
conflict enroll(player#1,cup#1) enroll(player#1,cup#1) breaks c1(player#1,cup#1)
  after left: known(player#1) enrolled(player#1,cup#1)
  after right: known(player#1) enrolled(player#1,cup#1)
  lost: known(player#1)
  hidden: none
conflicts 3, unsafe drops 0
";

/// The enrolment that makes its player known, which is accepted.
pub(super) const ENROLMENT_MENDED: &str = "\
sort player
sort cup
pred known(player) addwins
pred enrolled(player,cup) addwins
clause c1(p:player,t:cup): not enrolled(p,t) or known(p)
op add_player(p:player)
add known(p)
op rem_player(p:player)
del known(p)
op enroll(p:player,t:cup)
need known(p)
add enrolled(p,t)
add known(p)
";

/// The enrolment where removal of enrolled wins: two removals at once are left.
pub(super) const JOINT_REMOVAL: &str = "\
sort player
sort cup
pred known(player) addwins
pred enrolled(player,cup) remwins
clause c1(p:player,t:cup): not enrolled(p,t) or known(p)
op add_player(p:player)
add known(p)
op rem_player(p:player)
del known(p)
del enrolled(p,*)
op enroll(p:player,t:cup)
need known(p)
add enrolled(p,t)
";

/// The conflict of the joint removal.
pub(super) const JOINT_REMOVAL_REPORT: &str = "\
conflict enroll(player#1,cup#1) enroll(player#1,cup#1) breaks c1(player#1,cup#1)
  after left: known(player#1) enrolled(player#1,cup#1)
  after right: known(player#1) enrolled(player#1,cup#1)
  lost: known(player#1)
  hidden: none
conflicts 1, unsafe drops 0
";

/// The enrolment where every removal wins, which is accepted.
pub(super) const ENROLMENT_ALL_REMOVED: &str = "\
sort player
sort cup
pred known(player) remwins
pred enrolled(player,cup) remwins
clause c1(p:player,t:cup): not enrolled(p,t) or known(p)
op add_player(p:player)
add known(p)
op rem_player(p:player)
del known(p)
del enrolled(p,*)
op enroll(p:player,t:cup)
need known(p)
add enrolled(p,t)
";

/// The enrolment with an add of every element, which is refused at line 12.
pub(super) const ENROLMENT_WILD: &str = "\
sort player
sort cup
pred known(player) addwins
pred enrolled(player,cup) addwins
clause c1(p:player,t:cup): not enrolled(p,t) or known(p)
op add_player(p:player)
add known(p)
op rem_player(p:player)
del known(p)
op enroll(p:player,t:cup)
need known(p)
add enrolled(p,*)
";

/// The enrolment with a base that breaks its clause, which is refused at line 16.
pub(super) const ENROLMENT_BASE: &str = "\
sort player
sort cup
pred known(player) addwins
pred enrolled(player,cup) addwins
clause c1(p:player,t:cup): not enrolled(p,t) or known(p)
op add_player(p:player)
add known(p)
op rem_player(p:player)
del known(p)
op enroll(p:player,t:cup)
need known(p)
add enrolled(p,t)
add known(p)
elem player ann
elem cup open
base enrolled(ann,open)
";

/// A player can be removed with all enrolments, or moved to another cup.
pub(super) const MOVES: &str = "\
sort player
sort cup
pred known(player) addwins
pred enrolled(player,cup) addwins
clause c1(p:player,t:cup): not enrolled(p,t) or known(p)
op rem_player(p:player,t:cup)
del known(p)
del enrolled(p,*)
op move_to(p:player,t:cup)
del enrolled(p,*)
add enrolled(p,t)
bound cap enrolled(p,t) counts p most 1
";

/// Three bounds, of which the second counts the place in the middle.
pub(super) const SEATS: &str = "\
sort player
sort cup
pred enrolled(player,cup) addwins
pred seat(cup,player,cup) addwins
op enrol(p:player,c:cup)
add enrolled(p,c)
del seat(c,*,*)
bound size enrolled(p,c) counts p most 1
bound seats seat(c,p,d) counts p most 1
bound cups enrolled(p,c) counts c most 1
";

/// Two players are in one cup only while it is active.
pub(super) const SINGLES: &str = "\
sort player
sort cup
pred known(player) addwins
pred enrolled(player,cup) addwins
pred active(cup) addwins
clause known(p:player,c:cup): not enrolled(p,c) or known(p)
clause single(p:player,q:player,c:cup): p = q or not enrolled(p,c) or not enrolled(q,c) or active(c)
op enrol(p:player,c:cup)
add enrolled(p,c)
op forget(p:player,c:cup)
del known(p)
op clear(p:player,c:cup)
del known(*)
op end(p:player,c:cup)
del active(c)
op leave(p:player,c:cup)
del enrolled(p,*)
bound size enrolled(p,c) counts p most 2
drops known(p)
";

/// Three players, of whom two are known and in an active cup.
pub(super) const TWO_IN_A_CUP: &str = "\
elem player p0 p1 p2
elem cup c0 c1
base known(p1)
base known(p2)
base enrolled(p1,c1)
base enrolled(p2,c1)
base active(c1)
";

/// Forty players, of whom three are known, and one of these is in a cup.
pub(super) const FAR_APART: &str = "\
elem player p0 p1 p2 p3 p4 p5 p6 p7 p8 p9 p10 p11 p12 p13 p14 p15 p16 p17 p18 p19
elem player p20 p21 p22 p23 p24 p25 p26 p27 p28 p29 p30 p31 p32 p33 p34 p35 p36 p37 p38 p39
elem cup c0 c1
base known(p5)
base known(p9)
base known(p30)
base enrolled(p30,c1)
";
