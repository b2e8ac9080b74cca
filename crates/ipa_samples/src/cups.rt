//! Cups that are active, and then finished.

/// A cup may not be active and finished, and two replicas can begin and finish it.
pub(super) const EXCLUSIVE_CUP: &str = "\
sort cup
pred active(cup) addwins
pred finished(cup) addwins
clause ex(t:cup): not active(t) or not finished(t)
op begin(t:cup)
need not finished(t)
add active(t)
op finish(t:cup)
del active(t)
add finished(t)
";

/// The two conflicts of the exclusive cup.
pub(super) const EXCLUSIVE_CUP_REPORT: &str = "\
conflict begin(cup#1) finish(cup#1) breaks ex(cup#1)
  after left: active(cup#1)
  after right: finished(cup#1)
  lost: not finished(cup#1)
  hidden: active(cup#1)
conflict finish(cup#1) begin(cup#1) breaks ex(cup#1)
  after left: finished(cup#1)
  after right: active(cup#1)
  lost: not active(cup#1)
  hidden: active(cup#1)
conflicts 2, unsafe drops 0
";

/// The exclusive cup where removal of active wins, which is accepted.
pub(super) const EXCLUSIVE_CUP_REMOVED: &str = "\
sort cup
pred active(cup) remwins
pred finished(cup) addwins
clause ex(t:cup): not active(t) or not finished(t)
op begin(t:cup)
need not finished(t)
add active(t)
op finish(t:cup)
del active(t)
add finished(t)
";

/// Two cups, of which one is begun, and a session that finishes it.
pub(super) const BEGUN_CUP: &str = "\
# one cup
sort cup
pred active(cup) addwins
pred finished(cup) addwins
clause ex(t:cup): not active(t) or not finished(t)
op finish(t:cup)
del active(t)
add finished(t)
elem cup open closed
base active(closed)
replicas 2
session 2
do finish(closed)
show finished(*)
";
