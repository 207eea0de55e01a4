//! Lists of entries, and what they are of a tree, worked by hand from the definitions of a whole run, a run so far, and the nodes where it can
//! go on: 145 rows.
//!
//! A row has entries and, behind a bar, the nodes where the run can go on; or `whole` where it is a whole run, or `no` where it is no run so
//! far. An entry is its letter in the log and its node, and behind a point one more number: the version, the block, the index, 1 for yes.

/// One workingstep.
const WORKINGSTEP: (&str, &str) = (
    "#2=WORKPLAN('M',(#4),$);#4=MACHINING_WORKINGSTEP('',$,#30,#31);",
    "| 4\n\
    D4 | 4\n\
    D4 B4.0 | 4\n\
    D4 B4.0 B4.1 | 4\n\
    D4 E4 | whole\n\
    D4 B4.0 B4.1 E4 | whole\n\
    B4.0 | no\n\
    E4 | no\n\
    D4 B4.1 | no\n\
    D4 B4.0 B4.0 | no\n\
    D4 D4 | no\n\
    D4 E4 E4 | no\n\
    D4 E4 D4 | no\n\
    D9 | no\n\
    M2 | no\n\
    P4.0 | no\n\
    X0 | no\n\
    D4 X0 E4 | no",
);

/// An assignment, a mark, a wait and a message in order. A run so far asks nothing of marks.
const LEAVES: (&str, &str) = (
    "#2=WORKPLAN('M',(#4,#5,#6,#7),$);#4=ASSIGNMENT('',#90,#92);#5=SET_MARK('');#6=WAIT_FOR_MARK('',#5);#7=DISPLAY_MESSAGE('X');",
    "| 4\n\
    A4.1500 | 5\n\
    A4 S5 | 6\n\
    A4 S5 W6 | 7\n\
    A4 S5 W6 M7 | whole\n\
    S5 | no\n\
    A4 A4 | no\n\
    S4 | no\n\
    A4 W5 | no\n\
    A4 S5 M6 | no\n\
    A4 S5 W6 M7 M7 | no",
);

/// A workplan without elements is whole from the beginning.
const NOTHING: (&str, &str) = ("#2=WORKPLAN('M',(),$);", "| whole\nM2 | no");

/// Workplans in each other, of which one is empty.
const IN_ORDER: (&str, &str) = (
    "#2=WORKPLAN('M',(#3,#5,#6),$);#3=WORKPLAN('',(),$);#5=WORKPLAN('',(#4),$);#4=DISPLAY_MESSAGE('X');#6=DISPLAY_MESSAGE('Y');",
    "| 4\n\
    M4 | 6\n\
    M4 M6 | whole\n\
    M6 | no\n\
    M6 M4 | no\n\
    M4 M4 | no\n\
    M4 M6 M4 | no",
);

/// A parallel of two workingsteps, and a message behind it.
const SIDE_BY_SIDE: (&str, &str) = (
    "#2=WORKPLAN('M',(#3,#6),$);#3=PARALLEL('',(#4,#5));#4=MACHINING_WORKINGSTEP('',$,#30,#31);#5=MACHINING_WORKINGSTEP('',$,#30,#31);#6=DISPLAY_MESSAGE('X');",
    "| 4 5\n\
    D4 | 4 5\n\
    D5 D4 | 4 5\n\
    D4 D5 E4 | 5\n\
    D4 D5 B5.0 E4 B5.1 | 5\n\
    D4 D5 B5.0 E4 B5.1 E5 | 6\n\
    D4 E4 D5 E5 M6 | whole\n\
    D5 E5 D4 E4 M6 | whole\n\
    D4 E4 M6 | no\n\
    M6 | no\n\
    D4 D5 E5 E5 | no\n\
    D4 E4 D5 M6 | no",
);

/// A parallel of a workplan and of another parallel.
const PARALLELS: (&str, &str) = (
    "#2=WORKPLAN('M',(#3),$);#3=PARALLEL('',(#4,#5));#4=WORKPLAN('',(#6,#7),$);#5=PARALLEL('',(#8,#9));#6=DISPLAY_MESSAGE('');#7=DISPLAY_MESSAGE('');#8=DISPLAY_MESSAGE('');#9=WORKPLAN('',(),$);",
    "| 6 8\n\
    M8 | 6\n\
    M6 | 7 8\n\
    M6 M8 | 7\n\
    M6 M7 | 8\n\
    M6 M8 M7 | whole\n\
    M7 | no\n\
    M8 M8 | no\n\
    M8 M7 | no",
);

/// A non-sequential of three messages.
const ONE_AT_A_TIME: (&str, &str) = (
    "#2=WORKPLAN('M',(#3),$);#3=NON_SEQUENTIAL('',(#4,#5,#6));#4=DISPLAY_MESSAGE('');#5=DISPLAY_MESSAGE('');#6=DISPLAY_MESSAGE('');",
    "| 3\n\
    P3.1 | 5\n\
    P3.1 M5 | 3\n\
    P3.1 M4 | no\n\
    P3.1 M5 P3.1 | no\n\
    P3.3 | no\n\
    P3.1 P3.0 | no\n\
    P3.1 M5 P3.0 M4 P3.2 | 6\n\
    P3.1 M5 P3.0 M4 P3.2 M6 | whole\n\
    P3.2 M6 P3.1 M5 P3.0 M4 | whole\n\
    M4 | no\n\
    P3.1 M5 M5 | no\n\
    P3.0 M4 P3.1 M4 | no\n\
    P3.1 M5 P3.0 M4 P3.2 M6 P3.0 | no",
);

/// A non-sequential of a workplan with two messages and of an empty one, which is over as soon as it is picked.
const ONE_OF_THEM_EMPTY: (&str, &str) = (
    "#2=WORKPLAN('M',(#3),$);#3=NON_SEQUENTIAL('',(#4,#5));#4=WORKPLAN('',(#6,#7),$);#5=WORKPLAN('',(),$);#6=DISPLAY_MESSAGE('');#7=DISPLAY_MESSAGE('');",
    "P3.1 | 3\n\
    P3.1 P3.0 | 6\n\
    P3.1 P3.0 M6 | 7\n\
    P3.1 P3.0 M6 M7 | whole\n\
    P3.0 M6 | 7\n\
    P3.0 M6 P3.1 | no\n\
    P3.0 M6 M7 | 3\n\
    P3.0 M6 M7 P3.1 | whole",
);

/// A selective of a workplan with two messages and of a message.
const ONE_ALONE: (&str, &str) = (
    "#2=WORKPLAN('M',(#3),$);#3=SELECTIVE('',(#4,#5));#4=WORKPLAN('',(#6,#7),$);#5=DISPLAY_MESSAGE('');#6=DISPLAY_MESSAGE('');#7=DISPLAY_MESSAGE('');",
    "| 3\n\
    P3.0 | 6\n\
    P3.0 M6 | 7\n\
    P3.0 M6 M7 | whole\n\
    P3.1 | 5\n\
    P3.1 M5 | whole\n\
    P3.1 M6 | no\n\
    P3.1 M5 P3.0 | no\n\
    P3.2 | no\n\
    M5 | no\n\
    P3.0 P3.1 | no\n\
    P3.1 M5 M5 | no",
);

/// An if with a message for yes and a workplan for no, and a message behind it.
const TWO_BRANCHES: (&str, &str) = (
    "#2=WORKPLAN('M',(#3,#8),$);#3=IF_STATEMENT('',#91,#4,#5);#4=DISPLAY_MESSAGE('');#5=WORKPLAN('',(#6,#7),$);#6=DISPLAY_MESSAGE('');#7=DISPLAY_MESSAGE('');#8=DISPLAY_MESSAGE('');",
    "| 3\n\
    T3.1 | 4\n\
    T3.0 | 6\n\
    T3.1 M4 | 8\n\
    T3.0 M6 | 7\n\
    T3.0 M6 M7 | 8\n\
    T3.0 M6 M7 M8 | whole\n\
    T3.1 M4 M8 | whole\n\
    T3.1 M6 | no\n\
    T3.0 M4 | no\n\
    T3.1 T3.1 | no\n\
    M4 | no\n\
    T3.0 M6 M8 | no",
);

/// An if without a branch for no.
const ONE_BRANCH: (&str, &str) = (
    "#2=WORKPLAN('M',(#3),$);#3=IF_STATEMENT('',#91,#4,$);#4=DISPLAY_MESSAGE('');",
    "| 3\n\
    T3.0 | whole\n\
    T3.1 | 4\n\
    T3.1 M4 | whole\n\
    T3.0 M4 | no",
);

/// A while around an assignment.
const LOOP: (&str, &str) = (
    "#2=WORKPLAN('M',(#3),$);#3=WHILE_STATEMENT('',#91,#6);#6=ASSIGNMENT('',#90,#92);",
    "| 3\n\
    T3.1 | 6\n\
    T3.1 A6 | 3\n\
    T3.1 A6 T3.1 | 6\n\
    T3.1 A6 T3.0 | whole\n\
    T3.0 | whole\n\
    T3.1 T3.1 | no\n\
    T3.0 T3.1 | no\n\
    A6 | no\n\
    T3.1 A6 A6 | no\n\
    T3.0 A6 | no\n\
    T3.1 T3.0 | no",
);

/// A while around a non-sequential and a selective: each turn picks anew.
const CHOICES_IN_A_LOOP: (&str, &str) = (
    "#2=WORKPLAN('M',(#3),$);#3=WHILE_STATEMENT('',#91,#4);#4=WORKPLAN('',(#5,#6),$);#5=NON_SEQUENTIAL('',(#7,#8));#6=SELECTIVE('',(#9,#10));#7=DISPLAY_MESSAGE('');#8=DISPLAY_MESSAGE('');#9=DISPLAY_MESSAGE('');#10=DISPLAY_MESSAGE('');",
    "T3.1 | 5\n\
    T3.1 P5.1 M8 | 5\n\
    T3.1 P5.1 M8 P5.0 M7 | 6\n\
    T3.1 P5.1 M8 P5.0 M7 P6.0 M9 | 3\n\
    T3.1 P5.1 M8 P5.0 M7 P6.0 M9 T3.1 | 5\n\
    T3.1 P5.1 M8 P5.0 M7 P6.0 M9 T3.1 P5.1 | 8\n\
    T3.1 P5.1 M8 P5.0 M7 P6.0 M9 T3.0 | whole\n\
    T3.1 P5.1 M8 P5.0 M7 P6.0 M9 T3.1 P6.0 | no\n\
    T3.1 P5.1 M8 P5.1 | no\n\
    T3.1 P5.1 M8 T3.1 | no",
);

/// A while around an empty workplan.
const EMPTY_LOOP: (&str, &str) = (
    "#2=WORKPLAN('M',(#3),$);#3=WHILE_STATEMENT('',#91,#4);#4=WORKPLAN('',(),$);",
    "T3.1 | 3\n\
    T3.1 T3.1 | 3\n\
    T3.1 T3.0 | whole\n\
    T3.0 T3.0 | no",
);

/// A selective of an if around a parallel, and of a message.
const ALL_KINDS: (&str, &str) = (
    "#2=WORKPLAN('M',(#3),$);#3=SELECTIVE('',(#4,#8));#4=IF_STATEMENT('',#91,#5,$);#5=PARALLEL('',(#6,#7));#6=MACHINING_WORKINGSTEP('',$,#30,#31);#7=DISPLAY_MESSAGE('');#8=DISPLAY_MESSAGE('');",
    "P3.0 | 4\n\
    P3.0 T4.1 | 6 7\n\
    P3.0 T4.1 M7 D6 | 6\n\
    P3.0 T4.1 D6 M7 B6.0 E6 | whole\n\
    P3.0 T4.0 | whole\n\
    P3.0 T4.0 D6 | no\n\
    P3.1 T4.1 | no\n\
    P3.1 M8 | whole",
);

/// The instances of each project, and the rows of its tree.
pub(crate) const PROJECTS: [(&str, &str); 15] = [
    WORKINGSTEP,
    LEAVES,
    NOTHING,
    IN_ORDER,
    SIDE_BY_SIDE,
    PARALLELS,
    ONE_AT_A_TIME,
    ONE_OF_THEM_EMPTY,
    ONE_ALONE,
    TWO_BRANCHES,
    ONE_BRANCH,
    LOOP,
    CHOICES_IN_A_LOOP,
    EMPTY_LOOP,
    ALL_KINDS,
];
