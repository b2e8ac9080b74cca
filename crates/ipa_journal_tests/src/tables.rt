//! Inputs of a document and a journal, each with the journal that is written of it in version 2, or the line that
//! refuses it. Both stand between `|`.

/// The head of the document with two players in one place.
pub(crate) fn cups() -> &'static str {
    "\
sort player
sort cup
pred enrolled(player,cup) addwins
op enroll(p:player,t:cup)
add enrolled(p,t)
bound cap enrolled(p,t) counts p most 1
elem player ann bob cid
elem cup open
"
}

/// The setup and the journal of two sessions that race for a place, in version 1, and what is written of it.
pub(crate) fn race() -> &'static str {
    "\
replicas 2
session 1
do enroll(ann,open)
show enrolled(*,*)
session 2
do enroll(bob,open)
show enrolled(*,*)
journal 1
sessions 2
tx 1 1 cut 0 0 do enroll(ann,open)
tx 2 1 cut 0 0 do enroll(bob,open)
tx 1 2 cut 1 1 drop cap(bob,open)
tx 2 2 cut 1 1 drop cap(bob,open)
out 1 1 cut 0 0 commit 1
out 1 2 cut 2 1 shown enrolled(ann,open)
out 2 1 cut 0 0 commit 1
out 2 2 cut 1 2 shown enrolled(ann,open)
final enrolled(ann,open)
end
|journal 2
sessions 2
bounds greatest
tx 1 1 cut 0 0 do enroll(ann,open)
tx 2 1 cut 0 0 do enroll(bob,open)
tx 1 2 cut 1 1 drop cap(bob,open)
tx 2 2 cut 1 1 drop cap(bob,open)
out 1 1 cut 0 0 commit 1
out 1 2 cut 2 1 shown enrolled(ann,open)
out 2 1 cut 0 0 commit 1
out 2 2 cut 1 2 shown enrolled(ann,open)
final enrolled(ann,open)
end
"
}

/// The same for three replicas, of which two sessions see two each.
pub(crate) fn three() -> &'static str {
    "\
replicas 3
session 1
do enroll(ann,open)
show enrolled(*,*)
session 2
do enroll(bob,open)
session 3
do enroll(cid,open)
show enrolled(*,*)
journal 1
sessions 3
tx 1 1 cut 0 0 0 do enroll(ann,open)
tx 2 1 cut 0 0 0 do enroll(bob,open)
tx 3 1 cut 0 0 0 do enroll(cid,open)
tx 1 2 cut 1 1 0 drop cap(bob,open)
tx 3 2 cut 0 1 1 drop cap(cid,open)
out 1 1 cut 0 0 0 commit 1
out 1 2 cut 2 1 0 shown enrolled(ann,open)
out 2 1 cut 0 0 0 commit 1
out 3 1 cut 0 0 0 commit 1
out 3 2 cut 0 1 2 shown enrolled(bob,open)
final enrolled(ann,open)
end
|journal 2
sessions 3
bounds greatest
tx 1 1 cut 0 0 0 do enroll(ann,open)
tx 2 1 cut 0 0 0 do enroll(bob,open)
tx 3 1 cut 0 0 0 do enroll(cid,open)
tx 1 2 cut 1 1 0 drop cap(bob,open)
tx 3 2 cut 0 1 1 drop cap(cid,open)
out 1 1 cut 0 0 0 commit 1
out 1 2 cut 2 1 0 shown enrolled(ann,open)
out 2 1 cut 0 0 0 commit 1
out 3 1 cut 0 0 0 commit 1
out 3 2 cut 0 1 2 shown enrolled(bob,open)
final enrolled(ann,open)
end
"
}

/// A setup and a journal of two sessions, of which the second takes the place twice.
pub(crate) fn legal() -> &'static str {
    "\
replicas 2
session 1
do enroll(ann,open)
show enrolled(*,*)
show enrolled(*,*)
session 2
do enroll(bob,open)
do enroll(bob,open)
journal 1
sessions 2
tx 1 1 cut 0 0 do enroll(ann,open)
tx 2 1 cut 0 0 do enroll(bob,open)
tx 1 2 cut 1 1 drop cap(bob,open)
tx 2 2 cut 0 1 do enroll(bob,open)
tx 1 3 cut 2 2 drop cap(bob,open)
out 1 1 cut 0 0 commit 1
out 1 2 cut 2 1 shown enrolled(ann,open)
out 1 3 cut 3 2 shown enrolled(ann,open)
out 2 1 cut 0 0 commit 1
out 2 2 cut 0 1 commit 2
final enrolled(ann,open)
end
"
}

/// A line of the race behind its head, what stands in its place, and what the audit prints then.
pub(crate) fn damaged() -> &'static str {
    "\
tx 1 2 cut 1 1 drop cap(bob,open)>tx 1 2 cut 1 0 drop cap(bob,open)=bad line 20: illegal drop
|\
end>=refused: journal line 27
|\
tx 2 1 cut 0 0 do enroll(bob,open)>tx 1 1 cut 0 0 do enroll(ann,open)=bad line 19: repeated
|\
final enrolled(ann,open)>final none=bad line 26: final
|\
tx 1 1 cut 0 0 do enroll(ann,open)>=bad line 19: gap
|\
out 1 2 cut 2 1 shown enrolled(ann,open)>out 1 2 cut 1 1 shown enrolled(ann,open)=bad line 23: outcome
|\
out 2 2 cut 1 2 shown enrolled(ann,open)>=bad line 25: missing
|\
bound cap enrolled(p,t) counts p most 1>bound cap enrolled(p,t) counts p most 1 youngest=refused: journal line 16
"
}

/// A setup and a journal of version 2 with each reason of a refusal, behind the document that makes its player known.
pub(crate) fn known() -> &'static str {
    "\
elem player ann
elem cup open
session 1
do enroll(ann,open)
do add_player(ann)
do enroll(ann,open)
do rem_player(ann)
show enrolled(*,open)
journal 2
sessions 1
bounds none
tx 1 1 cut 0 do add_player(ann)
tx 1 2 cut 1 do enroll(ann,open)
out 1 1 cut 0 refused need 1
out 1 2 cut 0 commit 1
out 1 3 cut 1 commit 2
out 1 4 cut 2 refused clause c1(ann,open)
out 1 5 cut 2 shown enrolled(ann,open)
final known(ann) enrolled(ann,open)
end
|journal 2
sessions 1
bounds none
tx 1 1 cut 0 do add_player(ann)
tx 1 2 cut 1 do enroll(ann,open)
out 1 1 cut 0 refused need 1
out 1 2 cut 0 commit 1
out 1 3 cut 1 commit 2
out 1 4 cut 2 refused clause c1(ann,open)
out 1 5 cut 2 shown enrolled(ann,open)
final known(ann) enrolled(ann,open)
end
"
}

/// Setups and journals behind the head of two players in one place, each with the line that refuses it.
pub(crate) fn refused() -> &'static str {
    "\
session 1
>10|\
session 1
journal 3
>10|\
session 1
journal 1
sessions 2
>11|\
session 1
journal 2
sessions 1
bounds youngest
>12|\
session 1
journal 1
sessions 1
bounds greatest
>12|\
session 1
journal 1
sessions 1
final none
>13|\
session 1
journal 1
sessions 1
final none
end
tx
>14|\
session 1
journal 1
sessions 1
tx 2 1 cut 0 do enroll(ann,open)
>12|\
session 1
journal 1
sessions 1
tx 1 1 cut 0 0 do enroll(ann,open)
>12|\
session 1
journal 1
sessions 1
tx 1 1 cut 0 do enroll(ann)
>12|\
session 1
journal 1
sessions 1
tx 1 1 cut 0 do enroll(open,ann)
>12|\
session 1
journal 1
sessions 1
out 1 0 cut 0 commit 1
>12|\
session 1
journal 1
sessions 1
out 1 1 cut 0 refused need 7
>12|\
session 1
journal 1
sessions 1
out 1 1 cut 0 refused over cup
>12|\
session 1
journal 1
sessions 1
out 1 1 cut 0 commit 1
tx 1 1 cut 0 do enroll(ann,open)
>13|\
session 1
journal 1
sessions 1

# facts in their order
final enrolled(bob,open) enrolled(ann,open)
>14|\
session 1
journal 1
sessions 1
final enrolled(ann,open) enrolled(ann,open)
>12|\
session 1
journal 1
sessions 1
final
>12|\
session 1
journal 1
sessions 1
final none none
>12"
}
