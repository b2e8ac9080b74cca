//! An account that is there whatever happens: root, who is to be an admin while it is locked.

/// Locking the root account does not make root an admin, and any admin can be stripped of it.
pub(super) const ADMINS: &str = "\
sort user
const root: user
pred admin(user) addwins
pred locked(user) addwins
clause c(): not locked(root) or admin(root)
op lock()
add locked(root)
op strip(u:user)
del admin(u)
";

/// The report of the admins, worked out by hand.
pub(super) const ADMINS_REPORT: &str = "\
conflict lock() lock() breaks c()
  after left: admin(root) locked(root)
  after right: admin(root) locked(root)
  lost: admin(root)
  hidden: none
conflict lock() strip(root) breaks c()
  after left: admin(root) locked(root)
  after right: none
  lost: admin(root)
  hidden: none
conflict strip(root) lock() breaks c()
  after left: none
  after right: admin(root) locked(root)
  lost: not locked(root)
  hidden: none
conflicts 3, unsafe drops 0
";

/// Locking makes root an admin.
pub(super) const ADMINS_MENDED: &str = "\
sort user
const root: user
pred admin(user) addwins
pred locked(user) addwins
clause c(): not locked(root) or admin(root)
op lock()
add locked(root)
add admin(root)
op strip(u:user)
del admin(u)
";

/// Where there are more than two admins, the youngest is one no more; nor is root.
pub(super) const YOUNGEST: &str = "\
sort user
const root: user
pred admin(user) addwins
op promote(u:user)
add admin(u)
bound few admin(u) counts u most 2 youngest
drops admin(root)
";
