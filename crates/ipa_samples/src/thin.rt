//! Small applications over one element.

/// An add that no kept state has.
pub(super) const FORBIDDEN: &str = "\
sort x
pred a(x) addwins
clause k(v:x): not a(v)
op add_a(v:x)
add a(v)
";

/// A fact beside its opposite.
pub(super) const OPPOSITES: &str = "\
sort x
pred a(x) addwins
clause k(v:x): a(v) or not a(v)
op add_a(v:x)
add a(v)
op del_a(v:x)
del a(v)
";

/// An add beside a remove of one fact.
pub(super) const FLIP: &str = "\
sort x
pred a(x) addwins
pred b(x) addwins
clause ex(v:x): not a(v) or not b(v)
op flip(v:x)
add a(v)
del a(v)
op set_b(v:x)
add b(v)
";

/// The conflicts of the flip.
pub(super) const FLIP_REPORT: &str = "\
conflict flip(x#1) set_b(x#1) breaks ex(x#1)
  after left: a(x#1)
  after right: b(x#1)
  lost: not b(x#1)
  hidden: none
conflict set_b(x#1) flip(x#1) breaks ex(x#1)
  after left: b(x#1)
  after right: a(x#1)
  lost: not a(x#1)
  hidden: none
conflicts 2, unsafe drops 0
";

/// A need that its own effects touch.
pub(super) const TOUCHED: &str = "\
sort x
pred a(x) addwins
pred b(x) addwins
clause ex(v:x): not a(v) or not b(v)
op begin(v:x)
add a(v)
op finish(v:x)
need a(v)
del a(v)
add b(v)
";

/// The conflicts with the touched need.
pub(super) const TOUCHED_REPORT: &str = "\
conflict begin(x#1) finish(x#1) breaks ex(x#1)
  after left: a(x#1)
  after right: b(x#1)
  lost: not b(x#1)
  hidden: a(x#1)
conflict finish(x#1) begin(x#1) breaks ex(x#1)
  after left: b(x#1)
  after right: a(x#1)
  lost: not a(x#1)
  hidden: a(x#1)
conflicts 2, unsafe drops 0
";

/// A literal that nothing makes false.
pub(super) const UNFALSIFIED: &str = "\
sort x
pred a(x) addwins
pred b(x) remwins
clause k(v:x): not a(v) or not b(v)
op set_a(v:x)
add a(v)
op clear_a(v:x)
del a(v)
";

/// A literal that a third operation makes false.
pub(super) const FALSIFIED: &str = "\
sort x
pred a(x) addwins
pred b(x) remwins
clause k(v:x): not a(v) or not b(v)
op set_a(v:x)
add a(v)
op clear_a(v:x)
del a(v)
op set_b(v:x)
add b(v)
";

/// The conflicts with the third operation.
pub(super) const FALSIFIED_REPORT: &str = "\
conflict set_a(x#1) set_a(x#1) breaks k(x#1)
  after left: a(x#1)
  after right: a(x#1)
  lost: not b(x#1)
  hidden: none
conflict set_a(x#1) set_b(x#1) breaks k(x#1)
  after left: a(x#1)
  after right: b(x#1)
  lost: not b(x#1)
  hidden: none
conflict set_b(x#1) set_a(x#1) breaks k(x#1)
  after left: b(x#1)
  after right: a(x#1)
  lost: not a(x#1)
  hidden: none
conflicts 3, unsafe drops 0
";
