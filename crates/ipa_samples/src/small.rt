//! Small applications, each with one thing to show.

/// Two nodes may not both be leader.
pub(super) const LEADER: &str = "\
sort node
pred leader(node) addwins
clause one(p:node,q:node): not leader(p) or not leader(q) or p = q
op elect(p:node)
add leader(p)
";

/// The conflict of the leaders.
pub(super) const LEADER_REPORT: &str = "\
conflict elect(node#1) elect(node#2) breaks one(node#1,node#2)
  after left: leader(node#1)
  after right: leader(node#2)
  lost: not leader(node#2)
  hidden: none
conflicts 1, unsafe drops 0
";

/// A drop takes a player out of a cup who is in a match of it.
pub(super) const MATCHES: &str = "\
sort player
sort cup
pred enrolled(player,cup) addwins
pred inmatch(player,cup) addwins
clause c3(p:player,t:cup): not inmatch(p,t) or enrolled(p,t)
bound cap enrolled(p,t) counts p most 1
";

/// The unsafe drop of the matches.
pub(super) const MATCHES_REPORT: &str = "\
unsafe drop cap(player#1,cup#1) breaks c3(player#1,cup#1)
  before: enrolled(player#1,cup#1) inmatch(player#1,cup#1)
conflicts 0, unsafe drops 1
";

/// Three operations that add one each of three facts, not all of which may be true.
pub(super) const THREE_WAY: &str = "\
sort x
pred a(x) addwins
pred b(x) addwins
pred c(x) addwins
clause k(v:x): not a(v) or not b(v) or not c(v)
op add_a(v:x)
add a(v)
op add_b(v:x)
add b(v)
op add_c(v:x)
add c(v)
";

/// A triple of 21147 patterns, which is looked at.
pub(super) const NARROW: &str = "\
sort x
pred r(x,x,x) addwins
clause k(a:x,b:x,c:x): not r(a,b,c) or a = b
op put(a:x,b:x,c:x)
add r(a,b,c)
";

/// A triple of 41209 patterns, which is too wide.
pub(super) const WIDE: &str = "\
sort x
sort y
pred e(x,y) addwins
clause k(a:x,b:x,c:y,d:y): not e(a,c) or not e(b,d)
op put(a:x,b:x,c:y,d:y)
add e(a,c)
";

/// A triple that is too wide, behind one in conflict.
pub(super) const CUP_BEFORE_WIDE: &str = "\
sort cup
sort x
sort y
pred active(cup) addwins
pred finished(cup) addwins
pred e(x,y) addwins
clause ex(t:cup): not active(t) or not finished(t)
clause k(a:x,b:x,c:y,d:y): not e(a,c) or not e(b,d)
op begin(t:cup)
need not finished(t)
add active(t)
op finish(t:cup)
del active(t)
add finished(t)
op put(a:x,b:x,c:y,d:y)
add e(a,c)
";

/// Each form of a literal.
pub(super) const LITERALS: &str = "\
sort x
pred r(x,x) addwins
clause each(v:x,w:x): r(v,w) or not r(v,w) or v = w or v != w
";

/// A clause without variables that wants a fact, which is refused at line 2.
pub(super) const AJAR: &str = "\
pred open() addwins
clause ajar(): open()
";

/// The same, with a base that has the fact.
pub(super) const OPENED: &str = "\
pred open() addwins
clause ajar(): open()
base open()
";
