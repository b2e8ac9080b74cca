//! Tables of documents, as texts, with the refusal of each, worked out by hand.
//!
//! Proofs see that these functions answer texts, and no letter of them.

/// Five lines that the documents of the next table begin with.
pub(super) fn head() -> &'static str {
    "sort s\nsort t\npred p(s) addwins\npred q(s,t) remwins\nop o(x:s)\n"
}

/// Documents that are refused: before each stands a bar, and behind it the line and what is wrong with it.
pub(super) fn refused() -> &'static str {
    "|sort !
> line 6: byte
|sort a234567890123456789012345
> line 6: byte
|clause c(x:s): exists p(x)
> line 6: existential
|clause c exists ;
> line 6: byte
|sort
> line 6: line
|sort 31
sort
> line 6: line
|clause c(x:s): p(x,x)
> line 6: arity
|bound b p(x,y) counts z most 0
> line 6: arity
|add p(*,y)
> line 6: arity
|elem s a
base p(a,a)
> line 7: arity
|do o()
> line 6: arity
|show p()
> line 6: arity
|clause c(x:t): p(x)
> line 6: sort
|clause c(x:s,y:t): x = y
> line 6: sort
|clause c(x:u): p(x)
> line 6: sort
|add q(x,x)
> line 6: sort
|pred r(u) addwins
> line 6: unknown
|clause c(x:u): x = x
> line 6: unknown
|need r(x)
> line 6: unknown
|elem u a
> line 6: unknown
|base r(a)
> line 6: unknown
|do f()
> line 6: unknown
|show r(*)
> line 6: unknown
|sort s
> line 6: duplicate
|pred p() addwins
> line 6: duplicate
|clause c(x:s,x:s): p(x)
> line 6: duplicate
|op o()
> line 6: duplicate
|bound b q(x,x) counts x most 1
> line 6: duplicate
|elem s a b a
> line 6: duplicate
|elem s a b
elem s c a
> line 7: duplicate
|add p(*)
> line 6: wild add
|add p(y)
> line 6: free variable
|need x != y
> line 6: free variable
|bound b p(x) counts y most 1
> line 6: free variable
|bound b p(x) counts x most 1
drops p(y)
> line 7: free variable
|bound b p(x) counts x most 0
> line 6: limit 12 0
|bound b p(x) counts x most 65536
> line 6: limit 12 65536
|elem s a
sort u
> line 7: order
|sort u
need p(x)
> line 7: order
|drops p(*)
> line 6: order
|elem s a
do o(b)
> line 7: order
|show p(*)
> line 6: order
|replicas 2
replicas 2
> line 7: order
|session 1
replicas 2
> line 7: order
|elem s a
base p(b)
> line 7: element
|elem t a
base p(a)
> line 7: element
|session 0
> line 6: element
|session 2
> line 6: element
|replicas 2
session 3
> line 7: element
|elem s a
session 1
do o(b)
> line 8: element
|elem s a
session 1
show q(*,a)
> line 8: element
|replicas 0
> line 6: limit 15 0
|replicas 9
> line 6: limit 15 9
|
# a comment
 sort !
> line 8: byte
|sort s
sort !
> line 6: duplicate
|pred r(s,s,s,s) addwins
> line 6: limit 3 4
|clause c(x:s): p(x) or p(x) or p(x) or p(x) or p(x) or p(x) or p(x)
> line 6: limit 5 7
|clause c(a:s,b:s,c:s,d:s,e:s): p(a)
> line 6: limit 6 5
|op f(a:s,b:s,c:s,d:s,e:s)
> line 6: limit 8 5
|const a s
> line 6: line
|const a: u
> line 6: unknown
|const a: s
const a: t
> line 7: duplicate
|const a: t
clause k(): p(a)
> line 7: sort
|const a: s
const b: t
clause k(): a = b
> line 8: sort
|const a: s
elem s b a
> line 7: duplicate
|elem s b
const a: s
> line 7: order
|const a: s
bound b p(x) counts a most 1
> line 7: free variable
|bound b p(x) counts x most 1 oldest
> line 6: line
"
}

/// Documents that are read, with bars between them.
pub(super) fn read() -> &'static str {
    "|
|# only a comment|sort s|sort s
pred p(s) addwins
elem s a
|sort a2345678901234567890123_
|sort s
sort t
pred p(s,t,s) addwins
clause c(a:s,b:t,c:s,d:t): p(a,b,c) or p(a,d,c) or a = c or a != c or b = d or b != d
|sort s
sort t
elem s a b
elem t a
|sort s
pred p(s) addwins
op s(p:s)
need p(p)
add p(p)
del p(*)
need not p(p)
clause p(p:s): p != p or p(p)
|sort s
pred p(s) addwins
bound p p(x) counts x most 65535
drops p(*)
op o(a:s,b:s,c:s,d:s)
|sort s
sort t
const x: t
const y: s
pred p(s) addwins
clause c(x:s): p(x) or x != y or not p(y)
op o(x:s)
need p(x)
add p(y)
bound b p(x) counts x most 1 youngest
drops p(y)
elem s x
elem t y
|replicas 8
session 8
session 1
|sort s
pred p(s) addwins
elem s a
base p(a)
base p(a)
"
}

/// A document in which the line behind a star stands so often, with its number in place of `#`, and the line
/// that refuses it.
pub(super) type Repeated = (&'static str, u32, &'static str);

/// How often lines may stand, and the refusal where they stand once more.
pub(super) fn limits() -> [Repeated; 13] {
    [
        ("*sort s#", 8, " line 9: limit 1 9\n"),
        ("*pred p#() addwins", 32, " line 33: limit 2 33\n"),
        (
            "sort s\n*clause c#(x:s): x = x",
            32,
            " line 34: limit 4 33\n",
        ),
        ("*op o#()", 32, " line 33: limit 7 33\n"),
        (
            "sort s\nsort t\npred p(s) addwins\npred q(s,t) remwins\nop o(x:s)\n*add p(x)",
            12,
            " line 18: limit 9 13\n",
        ),
        (
            "sort s\nsort t\npred p(s) addwins\npred q(s,t) remwins\nop o(x:s)\n*need p(x)",
            6,
            " line 12: limit 10 7\n",
        ),
        (
            "sort s\nsort t\npred p(s) addwins\npred q(s,t) remwins\nop o(x:s)\n*bound b# p(x) counts x most 1",
            8,
            " line 14: limit 11 9\n",
        ),
        ("sort s\n*elem s e#", 256, " line 258: limit 14 257\n"),
        ("sort s\n*const c#: s", 4, " line 6: limit 19 5\n"),
        (
            "sort s\nconst c: s\n*elem s e#",
            255,
            " line 258: limit 14 257\n",
        ),
        ("*session 1", 16, " line 17: limit 16 17\n"),
        (
            "pred p() addwins\nsession 1\n*show p()",
            16384,
            " line 16387: limit 17 16385\n",
        ),
        (
            "sort s\npred p(s) addwins\nbound b p(x) counts x most 1\n*drops p(x)",
            4,
            " line 8: limit 13 5\n",
        ),
    ]
}

/// Documents with a base that is refused at their last line.
pub(super) fn bases() -> [Repeated; 6] {
    [
        (
            "sort s\npred p(s) addwins\nclause c(x:s,y:s,z:s,w:s): p(x)\n*elem s e#",
            1,
            " line 4: base clause c(e0,e0,e0,e0)\n",
        ),
        (
            "sort s\npred p(s) addwins\nclause c(x:s,y:s,z:s,w:s): p(x)\n*elem s e#\nbase p(e0)\n\n# the end",
            2,
            " line 8: base clause c(e1,e0,e0,e0)\n",
        ),
        (
            "sort s\npred p(s) addwins\nclause c(x:s,y:s,z:s,w:s): p(x)\n*elem s e#",
            64,
            " line 67: base clause c(e0,e0,e0,e0)\n",
        ),
        (
            "sort s\npred p(s) addwins\nclause c(x:s,y:s,z:s,w:s): p(x)\n*elem s e#\n# the end",
            65,
            " line 69: limit 18 17850625\n",
        ),
        (
            "sort s\npred p(s) addwins\nclause c(x:s,y:s,z:s,w:s): p(x)\nclause d(x:s): p(x)\n*elem s e#",
            64,
            " line 68: limit 18 16777280\n",
        ),
        (
            "sort s\npred p(s) addwins\nbound cap p(x) counts x most 1\n*elem s e#\nbase p(e0)\nbase p(e1)",
            2,
            " line 7: base over cap\n",
        ),
    ]
}
