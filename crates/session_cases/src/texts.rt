//! The texts of the scripts, by name.

/// A macro that adds to a global symbol, called twice.
const SUMS: &str = "         MACRO
         ADD2  &N
         GBLA  &TOT
&TOT     SETA  &TOT+&N
         MEND
         GBLA  &TOT
         ADD2  5
         ADD2  5
         END
";

/// The same without the macro.
const SUMS_ALONE: &str = "         GBLA  &TOT
         ADD2  5
         ADD2  5
         END
";

/// A macro that looks ahead for the type of a symbol.
const AHEAD: &str = "         MACRO
         TEST  &S
         AIF   (T'&S EQ 'F').FULL
         DC    C'N'
         MEXIT
.FULL    DC    C'Y'
         MEND
A        CSECT
         TEST  X
X        DC    F'0'
         END
";

/// The same with a symbol of another type.
const AHEAD_OTHER: &str = "         MACRO
         TEST  &S
         AIF   (T'&S EQ 'F').FULL
         DC    C'N'
         MEXIT
.FULL    DC    C'Y'
         MEND
A        CSECT
         TEST  X
X        DS    CL3
         END
";

/// A macro without variables, called where a global symbol has a value.
const PLAIN: &str = "         MACRO
         LAB
L&SYSNDX DC    F'0'
         MEND
         MACRO
         PLAIN
         DC    F'1'
         MEND
         GBLA  &G
&G       SETA  2
A        CSECT
         PLAIN
         END
";

/// Macros within one another, with parameters of every kind, and a member that is copied in one of them.
const NESTED: &str = "         MACRO
&L       INNER &A,&K=7,&T=
         LCLA  &I,&V(3)
         LCLB  &B
         LCLC  &C
&I       SETA  &A+1
&V(2)    SETA  &I*10
&B       SETB  (&I GT 1)
&C       SETC  'x&A'
         MEND
         MACRO
         OUTER
         GBLA  &G
         GBLC  &W(2)
         COPY  BOOK
&L       INNER &SYSLIST(1),T='a b'
         MNOTE *,'&SYSLIST(2) &SYSNDX &SYSNEST'
         INNER 4
         MEND
         GBLA  &G
&G       SETA  3
OPEN     OUTER 1,(2,3)
         COPY  BOOK
         END
";

/// What NESTED copies.
const BOOK: &str = "* A comment is no point
&G       SETA  &G+1

&W(1)    SETC  'book'
";

/// Macros without parameters, with local symbols of every type, one within the other.
const KINDS: &str = "         MACRO
         WITHIN
         LCLA  &I
         LCLC  &C
&I       SETA  7
&C       SETC  'in'
         MEND
         MACRO
         KINDS
         LCLA  &I,&V(3)
         LCLB  &B
         LCLC  &C
&I       SETA  -2
&V(3)    SETA  &I*10
&V(1)    SETA  1
&B       SETB  (&I LT 1)
&C       SETC  'a''b'
         WITHIN
&N       SETC  'new'
         MEND
         LCLB  &OPEN
         KINDS
         END
";

/// A program that copies a member, and calls the macro of another one.
const COPYING: &str = "         GBLA  &G
         GBLC  &W(2)
         COPY  BOOK
         SHARE 1
         END
";

/// The member that defines the macro SHARE.
const SHARE: &str = "         MACRO
         SHARE &P
         ANOP
         MEND
";

/// A loop.
const LOOP: &str = "         LCLA  &N,&S(4)
.MORE    ANOP
&N       SETA  &N+1
&S(&N)   SETA  &N*&N
         AIF   (&N LT 4).MORE
         END
";

/// A macro that calls itself until its operand is 0.
const DEEP: &str = "         MACRO
         DOWN  &N
         LCLA  &M
         AIF   (&N EQ 0).OUT
&M       SETA  &N-1
         DOWN  &M
.OUT     MEND
         DOWN  3
         END
";

/// A macro that declares a global symbol and reads nothing of it, called where it has one value and another.
const SHOWN: &str = "         MACRO
         SHOW
         GBLA  &G
         ANOP
         MEND
         MACRO
         ROUND
         SHOW
         SHOW
         MEND
         GBLA  &G
&G       SETA  1
         ROUND
&G       SETA  2
         ROUND
         SHOW
         END
";

/// Statements of more than one line, comments between them, and an empty line.
const CONTINUED: &str = "* A comment
         MACRO
         LONG  &A,                                                     X
               &B=2
.* A comment of the macro
         ANOP
         MEND
         LONG  1,                                                      X
               B=3

         END
";

/// Parameters that are filled and empty, and symbols that nobody declares.
const FILLED: &str = "         MACRO
&LAB     FILLED &P,&q,&KEY=def,&EMPTY=
         LCLC  &S
&S       SETC  'a\"b\\c'
&T(2)    SETC  'é€'
         AIF   (N'&SYSLIST EQ 4).ALL
&r       SETA  -1
.ALL     ANOP
         MEND
HERE     FILLED A,,(X,(Y,Z)),'it''s',KEY=other
         FILLED
         FILLED ,,,
         END
";

/// A macro that defines another one, which is called in it and behind it.
const MAKING: &str = "         MACRO
         MAKER
         MACRO
         MADE  &X
&Y       SETA  &X+1
         MEND
         MADE  3
         MEND
         MAKER
         MADE  4
         END
";

/// A program that copies a member, which copies another one, which calls a macro of a third.
const CHAIN: &str = "         COPY  ONE
         END
";

/// The first member of CHAIN.
const ONE: &str = "         ANOP
         COPY  TWO
         ANOP
";

/// The second one.
const TWO: &str = "&N       SETA  5
         SHARE &N
";

/// Another member that defines the macro SHARE.
const SHARE_OTHER: &str = "         MACRO
         SHARE &P
&L       SETA  &P
         ANOP
         MEND
";

/// Macros that end early, and statements that are wrong.
const LEAVING: &str = "         MACRO
         LEAVE &N
         AIF   (&N EQ 1).ON
         MEXIT
.ON      LEAVE 0
         NOSUCH
         AGO   .NONE
         MNOTE 4,'not reached'
         MEND
         LEAVE 1
&A       SETA  Q
         LEAVE 0
         END
";

/// A loop without an end.
const SPINNING: &str = ".MORE    AGO   .MORE
";

/// Lines that end with both characters.
const BOTH_ENDS: &str = "         LCLA  &N\r\n&N       SETA  1\r\n\r\n         END\r\n";

/// The text of a name; an empty one where there is none of that name.
pub fn named(name: &str) -> &'static str {
    match name {
        "sums" => SUMS,
        "sums_alone" => SUMS_ALONE,
        "ahead" => AHEAD,
        "ahead_other" => AHEAD_OTHER,
        "plain" => PLAIN,
        "nested" => NESTED,
        "book" => BOOK,
        "kinds" => KINDS,
        "copying" => COPYING,
        "share" => SHARE,
        "loop" => LOOP,
        "deep" => DEEP,
        "shown" => SHOWN,
        "continued" => CONTINUED,
        "filled" => FILLED,
        "making" => MAKING,
        "chain" => CHAIN,
        "one" => ONE,
        "two" => TWO,
        "share_other" => SHARE_OTHER,
        "leaving" => LEAVING,
        "spinning" => SPINNING,
        "both_ends" => BOTH_ENDS,
        _ => "",
    }
}
