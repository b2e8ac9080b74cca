//! The tournament: players, cups and matches, with all that an application has.

/// Its canonical text.
pub(crate) const TOURNAMENT: &str = "\
sort player
sort cup
pred player(player) addwins
pred tourn(cup) addwins
pred enrolled(player,cup) addwins
pred active(cup) remwins
pred finished(cup) addwins
pred inmatch(player,player,cup) remwins
clause c1(p:player,t:cup): not enrolled(p,t) or player(p)
clause c2(p:player,t:cup): not enrolled(p,t) or tourn(t)
clause c3(p:player,q:player,t:cup): not inmatch(p,q,t) or enrolled(p,t)
clause c4(p:player,q:player,t:cup): not inmatch(p,q,t) or enrolled(q,t)
clause c5(p:player,q:player,t:cup): not inmatch(p,q,t) or active(t) or finished(t)
clause c6(t:cup): not active(t) or tourn(t)
clause c7(t:cup): not finished(t) or tourn(t)
clause c8(t:cup): not active(t) or not finished(t)
op add_player(p:player)
add player(p)
op rem_player(p:player)
del player(p)
op add_tourn(t:cup)
add tourn(t)
op rem_tourn(t:cup)
del tourn(t)
del active(t)
del inmatch(*,*,t)
op enroll(p:player,t:cup)
need player(p)
need tourn(t)
add enrolled(p,t)
add player(p)
add tourn(t)
op disenroll(p:player,t:cup)
del enrolled(p,t)
del inmatch(p,*,t)
del inmatch(*,p,t)
op begin(t:cup)
need tourn(t)
need not finished(t)
add active(t)
add tourn(t)
op finish(t:cup)
need active(t)
del active(t)
add finished(t)
add tourn(t)
op match(p:player,q:player,t:cup)
need enrolled(p,t)
need enrolled(q,t)
need active(t)
need p != q
add inmatch(p,q,t)
add enrolled(p,t)
add enrolled(q,t)
add player(p)
add player(q)
add tourn(t)
bound cap enrolled(p,t) counts p most 3
drops inmatch(p,*,t)
drops inmatch(*,p,t)
";
