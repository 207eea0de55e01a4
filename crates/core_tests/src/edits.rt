//! Runs with edits, worked out by hand: tables as in runs.rt, with a script behind the schedule.

use crate::runs::expect_rows;
use std::test::Fail;

/// One workingstep, and an edit that is accepted before its dispatch or refused behind it.
const ONE_STEP: &str = "* a hole made deeper\n\
    #2=WORKPLAN('',(#10),$);#10=MACHINING_WORKINGSTEP('',#150,#120,#130);\n\
    ~EDIT AT 0;#172=CARTESIAN_POINT('',(0.,0.,-18.));ENDEDIT;|X 0 ok / D 10 1 / b 10 0 / b 10 1 / b 10 2 / B 10 3 F 10000 20000 -18000 40 / b 10 4 / b 10 5 / E 10 / end done 9\n\
    ~EDIT AT 1;#172=CARTESIAN_POINT('',(0.,0.,-18.));ENDEDIT;|D 10 0 / X 0 no J4 10 0 / b 10 0 / b 10 1 / b 10 2 / b 10 3 / b 10 4 / b 10 5 / E 10 / end done 9\n\
    ~EDIT AT 5;#172=CARTESIAN_POINT('',(0.,0.,-18.));ENDEDIT;|D 10 0 / b 10 0 / b 10 1 / b 10 2 / b 10 3 / X 0 no J4 10 0 / b 10 4 / b 10 5 / E 10 / end done 9\n\
    ~EDIT AT 1000;#172=CARTESIAN_POINT('',(0.,0.,-18.));ENDEDIT;|step 10 / X 0 no J4 10 0 / end done 9\n\
    ~EDIT AT 0;#172=CARTESIAN_POINT('',(0.,0.,-18.));ENDEDIT;EDIT AT 0;#172=CARTESIAN_POINT('',(0.,0.,-18.));ENDEDIT;|X 0 ok / X 1 ok / D 10 2 / b 10 0 / b 10 1 / b 10 2 / B 10 3 F 10000 20000 -18000 40 / b 10 4 / b 10 5 / E 10 / end done 10\n\
    ~EDIT AT 0;ENDEDIT;|X 0 ok / step 10 / end done 9\n\
    01~EDIT AT 1;ENDEDIT;EDIT AT 1;ENDEDIT;|D 10 0 / X 0 ok / X 1 ok / b 10 0 / b 10 1 / b 10 2 / b 10 3 / b 10 4 / b 10 5 / E 10 / end done 10\n";

/// What each rule refuses, and that it changes nothing.
const REFUSED: &str = "* each rule\n\
    #2=WORKPLAN('',(#10),$);#10=MACHINING_WORKINGSTEP('',#150,#120,#130);\n\
    ~EDIT AT 1;#130=DRILLING($,$,'',5.,$,#99,#145);ENDEDIT;|D 10 0 / X 0 no J2 130 99 / b 10 0 / b 10 1 / b 10 2 / b 10 3 / b 10 4 / b 10 5 / E 10 / end done 9\n\
    ~EDIT AT 0;#2=WORKPLAN('',(),$);ENDEDIT;|X 0 no J1 2 2 / step 10 / end done 9\n\
    ~EDIT AT 0;#99=CHANNEL('');ENDEDIT;|X 0 no J1 99 13 / step 10 / end done 9\n\
    ~EDIT AT 0;#10=MACHINING_WORKINGSTEP('',#150,#120,#44);ENDEDIT;|X 0 no J3 10 4 / step 10 / end done 9\n\
    ~EDIT AT 0;#172=CARTESIAN_POINT('',(0.,0.,15.));ENDEDIT;|X 0 no J5 10 6 / step 10 / end done 9\n\
    ~EDIT AT 0;#172=CARTESIAN_POINT('',(0.,0.,15.));ENDEDIT;EDIT AT 0;#170=CARTESIAN_POINT('',(10.,20.,0.));ENDEDIT;|X 0 no J5 10 6 / X 1 ok / D 10 1 / b 10 0 / b 10 1 / b 10 2 / b 10 3 / b 10 4 / b 10 5 / E 10 / end done 10\n";

/// An edit that reaches one of two workingsteps, and one that reaches both.
const TWO_STEPS: &str = "* what is reached\n\
    #2=WORKPLAN('',(#10,#7),$);#10=MACHINING_WORKINGSTEP('',#150,#120,#130);#7=MACHINING_WORKINGSTEP('',#151,#121,#131);\n\
    ~EDIT AT 1;#175=CARTESIAN_POINT('',(0.,0.,-9.));ENDEDIT;|D 10 0 / X 0 ok / b 10 0 / b 10 1 / b 10 2 / b 10 3 / b 10 4 / b 10 5 / E 10 / D 7 1 / B 7 0 T 46 -12500 / B 7 1 R -4000 0 50000 / B 7 2 R -4000 0 2000 / B 7 3 F -4000 0 -10000 25 / B 7 4 R -4000 0 2000 / B 7 5 R -4000 0 50000 / E 7 / end done 17\n\
    ~EDIT AT 1;#175=CARTESIAN_POINT('',(0.,0.,-9.));#172=CARTESIAN_POINT('',(0.,0.,-15.));ENDEDIT;|D 10 0 / X 0 no J4 10 0 / b 10 0 / b 10 1 / b 10 2 / b 10 3 / b 10 4 / b 10 5 / E 10 / D 7 0 / B 7 0 T 46 -12500 / B 7 1 R -4000 0 50000 / B 7 2 R -4000 0 2000 / B 7 3 F -4000 0 -8000 25 / B 7 4 R -4000 0 2000 / B 7 5 R -4000 0 50000 / E 7 / end done 17\n";

/// Edits that are due because the run is stuck, and one that frees nothing.
const STUCK: &str = "* each of two waits for the other\n\
    #2=WORKPLAN('',(#3),$);#3=PARALLEL('',(#4,#5));#4=WORKPLAN('',(#6,#13),#8);#5=WORKPLAN('',(#7,#11),#9);#6=WAIT_FOR_MARK('',#11);#7=WAIT_FOR_MARK('',#13);#8=CHANNEL('');#9=CHANNEL('');#11=SET_MARK('');#13=SET_MARK('');\n\
    ~EDIT AT 1000;ENDEDIT;EDIT AT 2000;#11=SET_MARK('');ENDEDIT;|X 0 ok / X 1 no J1 11 9 / end blocked 2\n\
    * nothing at all\n\
    #2=WORKPLAN('',(),$);\n\
    ~EDIT AT 7;#300=PLANE('',#161);ENDEDIT;|X 0 ok / end done 1\n";

#[test]
fn one_step_is_edited(rt: HostRuntime) -> Result<(), Fail> {
    expect_rows(&rt, rt.alloc(), ONE_STEP)
}

#[test]
fn edits_are_refused_by_each_rule(rt: HostRuntime) -> Result<(), Fail> {
    expect_rows(&rt, rt.alloc(), REFUSED)
}

#[test]
fn what_an_edit_reaches_changes(rt: HostRuntime) -> Result<(), Fail> {
    expect_rows(&rt, rt.alloc(), TWO_STEPS)
}

#[test]
fn a_run_that_is_stuck_judges_its_edits(rt: HostRuntime) -> Result<(), Fail> {
    expect_rows(&rt, rt.alloc(), STUCK)
}
