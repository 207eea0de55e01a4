//! Runs worked out by hand: what each gives under a schedule, up to every limit.

use crate::logs::{count_of, expect_run, lines_of, log_up_to};
use std::alloc::Global;
use std::process::Abort;
use std::test::Fail;

// Each part of a table begins with `*` and what its project shows. The line behind that has the project's instances, and each further line is a run of it:
// the schedule's digits, behind `~` the text of a script where there is one, a bar, and the log as logs.rt has it.

/// Steps and channels.
const STEPS: &str = "* two steps in a row\n\
    #2=WORKPLAN('',(#10,#7),$);#10=MACHINING_WORKINGSTEP('',#150,#120,#132);#7=MACHINING_WORKINGSTEP('',#151,#121,#131);\n\
    |D 10 0 / B 10 0 T 44 20000 / B 10 1 R 10000 20000 30000 / B 10 2 R 10000 20000 5000 / B 10 3 F 10000 20000 -15000 40 / B 10 4 W 500 / B 10 5 R 10000 20000 5000 / B 10 6 R 10000 20000 30000 / E 10 / D 7 0 / B 7 0 T 46 -12500 / B 7 1 R -4000 0 50000 / B 7 2 R -4000 0 2000 / B 7 3 F -4000 0 -8000 25 / B 7 4 R -4000 0 2000 / B 7 5 R -4000 0 50000 / E 7 / end done 17\n\
    * one step\n\
    #2=WORKPLAN('',(#10),$);#10=MACHINING_WORKINGSTEP('',#150,#120,#130);\n\
    |step 10 / end done 8\n\
    7654321|step 10 / end done 8\n\
    98|step 10 / end done 8\n\
    0000000000|step 10 / end done 8\n\
    * nothing\n\
    #2=WORKPLAN('',(),$);\n\
    |end done 0\n\
    0|end done 0\n\
    * a parallel of nothing\n\
    #2=WORKPLAN('',(#3),$);#3=PARALLEL('',(#4,#5));#4=WORKPLAN('',(),$);#5=WORKPLAN('',(),$);\n\
    |end done 0\n\
    * two steps of one channel\n\
    #2=WORKPLAN('',(#3),$);#3=PARALLEL('',(#10,#9));#9=MACHINING_WORKINGSTEP('',#150,#120,#130);#10=MACHINING_WORKINGSTEP('',#150,#120,#130);\n\
    |step 10 / step 9 / end done 16\n\
    1|step 10 / step 9 / end done 16\n\
    * two channels\n\
    #2=WORKPLAN('',(#3),$);#3=PARALLEL('',(#4,#5));#4=WORKPLAN('',(#10),#8);#5=WORKPLAN('',(#9),#11);#8=CHANNEL('0');#11=CHANNEL('1');#9=MACHINING_WORKINGSTEP('',#150,#120,#130);#10=MACHINING_WORKINGSTEP('',#150,#120,#130);\n\
    110|D 9 0 / b 9 0 / D 10 0 / b 10 0 / b 9 1 / b 10 1 / b 9 2 / b 10 2 / b 9 3 / b 10 3 / b 9 4 / b 10 4 / b 9 5 / b 10 5 / E 9 / E 10 / end done 16\n\
    11111111111111111111|step 9 / step 10 / end done 16\n\
    00000001|D 10 0 / b 10 0 / b 10 1 / b 10 2 / b 10 3 / b 10 4 / b 10 5 / D 9 0 / E 10 / b 9 0 / b 9 1 / b 9 2 / b 9 3 / b 9 4 / b 9 5 / E 9 / end done 16\n\
    |D 10 0 / D 9 0 / b 10 0 / b 9 0 / b 10 1 / b 9 1 / b 10 2 / b 9 2 / b 10 3 / b 9 3 / b 10 4 / b 9 4 / b 10 5 / b 9 5 / E 10 / E 9 / end done 16\n\
    * a step that is held back while its channel is busy, beside another channel\n\
    #2=WORKPLAN('',(#3),$);#3=PARALLEL('',(#4,#5,#6));#4=WORKPLAN('',(#10),#11);#5=WORKPLAN('',(#9),#12);#6=WORKPLAN('',(#8),#11);#11=CHANNEL('0');#12=CHANNEL('1');#8=MACHINING_WORKINGSTEP('',#150,#120,#130);#9=MACHINING_WORKINGSTEP('',#150,#120,#130);#10=MACHINING_WORKINGSTEP('',#150,#120,#130);\n\
    |D 10 0 / D 9 0 / b 10 0 / b 9 0 / b 10 1 / b 9 1 / b 10 2 / b 9 2 / b 10 3 / b 9 3 / b 10 4 / b 9 4 / b 10 5 / b 9 5 / E 10 / E 9 / step 8 / end done 24\n\
    00000000000|step 10 / D 8 0 / b 8 0 / b 8 1 / b 8 2 / D 9 0 / b 8 3 / b 9 0 / b 8 4 / b 9 1 / b 8 5 / b 9 2 / E 8 / b 9 3 / b 9 4 / b 9 5 / E 9 / end done 24\n\
    * a step that stands before the one that is open, and comes later\n\
    #2=WORKPLAN('',(#3),$);#3=PARALLEL('',(#4,#9,#5));#4=WORKPLAN('',(#6,#10),#11);#5=WORKPLAN('',(#7),#8);#6=WAIT_FOR_MARK('',#7);#7=SET_MARK('');#8=CHANNEL('1');#11=CHANNEL('0');#9=MACHINING_WORKINGSTEP('',#150,#120,#130);#10=MACHINING_WORKINGSTEP('',#150,#120,#130);\n\
    00100|D 9 0 / b 9 0 / S 7 / W 6 / b 9 1 / b 9 2 / b 9 3 / b 9 4 / b 9 5 / E 9 / step 10 / end done 18\n\
    100|S 7 / W 6 / step 10 / step 9 / end done 18\n";

/// Marks and waits, and runs that are blocked.
const MARKS: &str = "* a wait before its mark\n\
    #2=WORKPLAN('',(#3),$);#3=PARALLEL('',(#4,#5));#4=WORKPLAN('',(#6),#8);#5=WORKPLAN('',(#7),#9);#6=WAIT_FOR_MARK('',#7);#7=SET_MARK('');#8=CHANNEL('0');#9=CHANNEL('1');\n\
    0011|S 7 / W 6 / end done 2\n\
    |S 7 / W 6 / end done 2\n\
    1|S 7 / W 6 / end done 2\n\
    * a wait behind its mark\n\
    #2=WORKPLAN('',(#7,#6),$);#6=WAIT_FOR_MARK('',#7);#7=SET_MARK('');\n\
    |S 7 / W 6 / end done 2\n\
    * two waits for one mark\n\
    #2=WORKPLAN('',(#3),$);#3=PARALLEL('',(#6,#8,#7));#6=WAIT_FOR_MARK('',#7);#7=SET_MARK('');#8=WAIT_FOR_MARK('',#7);\n\
    |S 7 / W 6 / W 8 / end done 3\n\
    * a step between a wait and its mark\n\
    #2=WORKPLAN('',(#3),$);#3=PARALLEL('',(#6,#10,#7));#6=WAIT_FOR_MARK('',#7);#7=SET_MARK('');#10=MACHINING_WORKINGSTEP('',#150,#120,#130);\n\
    |step 10 / S 7 / W 6 / end done 10\n\
    * each channel waits for the other\n\
    #2=WORKPLAN('',(#3),$);#3=PARALLEL('',(#4,#5));#4=WORKPLAN('',(#6,#13),#8);#5=WORKPLAN('',(#7,#11),#9);#6=WAIT_FOR_MARK('',#11);#7=WAIT_FOR_MARK('',#13);#11=SET_MARK('');#13=SET_MARK('');#8=CHANNEL('0');#9=CHANNEL('1');\n\
    |end blocked 0\n\
    0101|end blocked 0\n\
    * each of two waits for the other, beside a message\n\
    #2=WORKPLAN('',(#3),$);#3=PARALLEL('',(#4,#5,#14));#14=WORKPLAN('',(#15),#16);#16=CHANNEL('2');#15=DISPLAY_MESSAGE('');#4=WORKPLAN('',(#6,#13),#8);#5=WORKPLAN('',(#7,#11),#9);#6=WAIT_FOR_MARK('',#11);#7=WAIT_FOR_MARK('',#13);#11=SET_MARK('');#13=SET_MARK('');#8=CHANNEL('0');#9=CHANNEL('1');\n\
    |M 15 / end blocked 1\n\
    0101|M 15 / end blocked 1\n\
    * each of two waits for the other, beside a step\n\
    #2=WORKPLAN('',(#3),$);#3=PARALLEL('',(#4,#5,#10));#4=WORKPLAN('',(#6,#13),#8);#5=WORKPLAN('',(#7,#11),#9);#6=WAIT_FOR_MARK('',#11);#7=WAIT_FOR_MARK('',#13);#11=SET_MARK('');#13=SET_MARK('');#8=CHANNEL('0');#9=CHANNEL('1');#10=MACHINING_WORKINGSTEP('',#150,#120,#130);\n\
    |step 10 / end blocked 8\n\
    1111|step 10 / end blocked 8\n\
    * a wait in front of its own mark\n\
    #2=WORKPLAN('',(#6,#7),$);#6=WAIT_FOR_MARK('',#7);#7=SET_MARK('');\n\
    |end blocked 0\n\
    * a wait for a mark outside of the tree\n\
    #2=WORKPLAN('',(#6,#3),$);#3=WAIT_FOR_MARK('',#5);#5=SET_MARK('');#6=DISPLAY_MESSAGE('');\n\
    |M 6 / end blocked 1\n\
    * a mark that is set in every round\n\
    #2=WORKPLAN('',(#3),$);#3=WHILE_STATEMENT('',#4,#5);#4=COMPARISON_LESS(#6,2.);#6=NC_VARIABLE('V',$);#7=SET_MARK('');#8=WAIT_FOR_MARK('',#7);#11=ASSIGNMENT('',#6,#12);#12=!NC_SUM(#6,1.);#5=WORKPLAN('',(#7,#8,#11),$);\n\
    |T 3 1 / S 7 / W 8 / A 11 1000 / T 3 1 / S 7 / W 8 / A 11 2000 / T 3 0 / end done 9\n\
    * a mark that is set in the first round, and stays set\n\
    #2=WORKPLAN('',(#3),$);#3=WHILE_STATEMENT('',#4,#5);#4=COMPARISON_LESS(#6,2.);#6=NC_VARIABLE('V',$);#7=SET_MARK('');#8=WAIT_FOR_MARK('',#7);#11=ASSIGNMENT('',#6,#12);#12=!NC_SUM(#6,1.);#5=WORKPLAN('',(#13,#8,#11),$);#13=IF_STATEMENT('',#14,#7,$);#14=COMPARISON_EQUAL(#6,0.);\n\
    |T 3 1 / T 13 1 / S 7 / W 8 / A 11 1000 / T 3 1 / T 13 0 / W 8 / A 11 2000 / T 3 0 / end done 10\n";

/// What comes first: channels, orders and choices.
const ORDERS: &str = "* a message behind two channels\n\
    #2=WORKPLAN('',(#3,#6),$);#3=PARALLEL('',(#15,#16));#15=WORKPLAN('',(#17),#18);#16=WORKPLAN('',(#19),#21);#18=CHANNEL('');#21=CHANNEL('');#17=DISPLAY_MESSAGE('');#19=DISPLAY_MESSAGE('');#6=DISPLAY_MESSAGE('');\n\
    000|M 17 / M 19 / M 6 / end done 3\n\
    1|M 19 / M 17 / M 6 / end done 3\n\
    * an order of one channel over elements of two\n\
    #2=WORKPLAN('',(#16,#15),$);#16=WORKPLAN('',(#17),#18);#15=WORKPLAN('',(#3),#21);#3=NON_SEQUENTIAL('',(#4,#5));#4=WORKPLAN('',(#6),#18);#18=CHANNEL('');#21=CHANNEL('');#17=DISPLAY_MESSAGE('');#5=DISPLAY_MESSAGE('');#6=DISPLAY_MESSAGE('');\n\
    0101100|M 17 / P 3 0 / M 6 / P 3 1 / M 5 / end done 5\n\
    1000|M 17 / P 3 0 / M 6 / P 3 1 / M 5 / end done 5\n\
    * eight channels\n\
    #2=WORKPLAN('',(#3),$);#3=PARALLEL('',(#31,#32,#33,#34,#35,#36,#37,#38));#31=WORKPLAN('',(#11),#21);#32=WORKPLAN('',(#12),#22);#33=WORKPLAN('',(#13),#23);#34=WORKPLAN('',(#14),#24);#35=WORKPLAN('',(#15),#25);#36=WORKPLAN('',(#16),#26);#37=WORKPLAN('',(#17),#27);#38=WORKPLAN('',(#18),#28);#21=CHANNEL('');#22=CHANNEL('');#23=CHANNEL('');#24=CHANNEL('');#25=CHANNEL('');#26=CHANNEL('');#27=CHANNEL('');#28=CHANNEL('');#11=DISPLAY_MESSAGE('');#12=DISPLAY_MESSAGE('');#13=DISPLAY_MESSAGE('');#14=DISPLAY_MESSAGE('');#15=DISPLAY_MESSAGE('');#16=DISPLAY_MESSAGE('');#17=DISPLAY_MESSAGE('');#18=DISPLAY_MESSAGE('');\n\
    |M 11 / M 12 / M 13 / M 14 / M 15 / M 16 / M 17 / M 18 / end done 8\n\
    76543210|M 18 / M 17 / M 16 / M 15 / M 14 / M 13 / M 12 / M 11 / end done 8\n\
    98|M 11 / M 12 / M 13 / M 14 / M 15 / M 16 / M 17 / M 18 / end done 8\n\
    7|M 18 / M 11 / M 12 / M 13 / M 14 / M 15 / M 16 / M 17 / end done 8\n\
    3355|M 14 / M 16 / M 11 / M 12 / M 13 / M 15 / M 17 / M 18 / end done 8\n\
    * three in any order\n\
    #2=WORKPLAN('',(#3),$);#3=NON_SEQUENTIAL('',(#4,#5,#6));#4=DISPLAY_MESSAGE('');#5=DISPLAY_MESSAGE('');#6=DISPLAY_MESSAGE('');\n\
    |P 3 0 / M 4 / P 3 1 / M 5 / P 3 2 / M 6 / end done 6\n\
    * one of three\n\
    #2=WORKPLAN('',(#3),$);#3=SELECTIVE('',(#4,#5,#6));#4=DISPLAY_MESSAGE('');#5=DISPLAY_MESSAGE('');#6=DISPLAY_MESSAGE('');\n\
    |P 3 0 / M 4 / end done 2\n\
    * an order around a choice\n\
    #2=WORKPLAN('',(#3),$);#3=NON_SEQUENTIAL('',(#4,#5));#4=WORKPLAN('',(#6,#7),$);#5=SELECTIVE('',(#8,#11));#6=DISPLAY_MESSAGE('');#7=DISPLAY_MESSAGE('');#8=DISPLAY_MESSAGE('');#11=DISPLAY_MESSAGE('');\n\
    |P 3 0 / M 6 / M 7 / P 3 1 / P 5 0 / M 8 / end done 6\n\
    * an order with an empty element\n\
    #2=WORKPLAN('',(#3),$);#3=NON_SEQUENTIAL('',(#4,#5));#4=WORKPLAN('',(),$);#5=DISPLAY_MESSAGE('');\n\
    |P 3 0 / P 3 1 / M 5 / end done 3\n\
    * a choice with an empty element\n\
    #2=WORKPLAN('',(#3),$);#3=SELECTIVE('',(#4,#5));#4=WORKPLAN('',(),$);#5=DISPLAY_MESSAGE('');\n\
    |P 3 0 / end done 1\n\
    * an order and a choice in a loop\n\
    #2=WORKPLAN('',(#3),$);#3=WHILE_STATEMENT('',#4,#5);#4=COMPARISON_LESS(#6,2.);#5=WORKPLAN('',(#11,#12,#7),$);#6=NC_VARIABLE('',$);#7=ASSIGNMENT('',#6,#8);#8=!NC_SUM(#6,1.);#11=NON_SEQUENTIAL('',(#13,#14));#12=SELECTIVE('',(#15,#16));#13=DISPLAY_MESSAGE('');#14=DISPLAY_MESSAGE('');#15=DISPLAY_MESSAGE('');#16=DISPLAY_MESSAGE('');\n\
    |T 3 1 / P 11 0 / M 13 / P 11 1 / M 14 / P 12 0 / M 15 / A 7 1000 / T 3 1 / P 11 0 / M 13 / P 11 1 / M 14 / P 12 0 / M 15 / A 7 2000 / T 3 0 / end done 17\n";

/// Tests, loops and variables.
const TESTS: &str = "* three times round\n\
    #2=WORKPLAN('',(#3),$);#3=WHILE_STATEMENT('',#4,#6);#4=COMPARISON_LESS(#5,3);#5=NC_VARIABLE('V',$);#6=ASSIGNMENT('',#5,#7);#7=!NC_SUM(#5,1);\n\
    |T 3 1 / A 6 1000 / T 3 1 / A 6 2000 / T 3 1 / A 6 3000 / T 3 0 / end done 7\n\
    000|T 3 1 / A 6 1000 / T 3 1 / A 6 2000 / T 3 1 / A 6 3000 / T 3 0 / end done 7\n\
    * a test beside an assignment of another channel\n\
    #2=WORKPLAN('',(#3),$);#3=PARALLEL('',(#4,#5));#4=WORKPLAN('',(#6),#8);#5=WORKPLAN('',(#7),#9);#6=IF_STATEMENT('',#11,#12,#13);#7=ASSIGNMENT('',#14,1.);#8=CHANNEL('');#9=CHANNEL('');#11=COMPARISON_LESS(#14,1.);#14=NC_VARIABLE('',$);#12=DISPLAY_MESSAGE('');#13=DISPLAY_MESSAGE('');\n\
    |T 6 1 / A 7 1000 / M 12 / end done 3\n\
    1|A 7 1000 / T 6 0 / M 13 / end done 3\n\
    00|T 6 1 / M 12 / A 7 1000 / end done 3\n\
    * values of variables that have changed\n\
    #2=WORKPLAN('',(#4,#5,#6),$);#4=ASSIGNMENT('',#7,2.5);#5=ASSIGNMENT('',#8,#9);#6=ASSIGNMENT('',#7,#11);#7=NC_VARIABLE('',7.);#8=NC_VARIABLE('',$);#9=!NC_PRODUCT(#7,#7);#11=!NC_DIFFERENCE(#8,#7);\n\
    |A 4 2500 / A 5 6250 / A 6 3750 / end done 3\n\
    * a step in a loop\n\
    #2=WORKPLAN('',(#3),$);#3=WHILE_STATEMENT('',#4,#5);#4=COMPARISON_LESS(#6,2.);#6=NC_VARIABLE('V',$);#7=SET_MARK('');#8=WAIT_FOR_MARK('',#7);#11=ASSIGNMENT('',#6,#12);#12=!NC_SUM(#6,1.);#5=WORKPLAN('',(#10,#11),$);#10=MACHINING_WORKINGSTEP('',#150,#120,#130);\n\
    |T 3 1 / step 10 / A 11 1000 / T 3 1 / step 10 / A 11 2000 / T 3 0 / end done 21\n\
    * two channels in a loop\n\
    #2=WORKPLAN('',(#3),$);#3=WHILE_STATEMENT('',#4,#5);#4=COMPARISON_LESS(#6,2.);#5=PARALLEL('',(#11,#12));#6=NC_VARIABLE('',$);#11=WORKPLAN('',(#13,#15),#17);#12=WORKPLAN('',(#14,#16),#18);#15=ASSIGNMENT('',#6,#19);#17=CHANNEL('');#18=CHANNEL('');#19=!NC_SUM(#6,1.);#13=DISPLAY_MESSAGE('');#14=DISPLAY_MESSAGE('');#16=DISPLAY_MESSAGE('');\n\
    |T 3 1 / M 14 / M 13 / M 16 / A 15 1000 / T 3 1 / M 14 / M 13 / M 16 / A 15 2000 / T 3 0 / end done 11\n\
    00000|T 3 1 / M 13 / A 15 1000 / M 14 / M 16 / T 3 1 / M 14 / M 13 / M 16 / A 15 2000 / T 3 0 / end done 11\n\
    * an if without an else, of no\n\
    #2=WORKPLAN('',(#3),$);#3=IF_STATEMENT('',#4,#6,$);#4=OR_EXPRESSION(());#6=DISPLAY_MESSAGE('');\n\
    |T 3 0 / end done 1\n\
    * an if without an else, of yes\n\
    #2=WORKPLAN('',(#3),$);#3=IF_STATEMENT('',#4,#6,$);#4=AND_EXPRESSION(());#6=DISPLAY_MESSAGE('');\n\
    |T 3 1 / M 6 / end done 2\n\
    * an if with an else, of no\n\
    #2=WORKPLAN('',(#3),$);#3=IF_STATEMENT('',#4,#6,#10);#4=OR_EXPRESSION(());#6=DISPLAY_MESSAGE('');#10=MACHINING_WORKINGSTEP('',#150,#120,#130);\n\
    |T 3 0 / step 10 / end done 9\n\
    * a loop that is never entered\n\
    #2=WORKPLAN('',(#3,#6),$);#3=WHILE_STATEMENT('',#4,#10);#4=OR_EXPRESSION(());#6=DISPLAY_MESSAGE('');#10=MACHINING_WORKINGSTEP('',#150,#120,#130);\n\
    |T 3 0 / M 6 / end done 2\n\
    * an empty loop without an end\n\
    #2=WORKPLAN('',(#3),$);#3=WHILE_STATEMENT('',#4,#5);#4=AND_EXPRESSION(());#5=WORKPLAN('',(),$);\n\
    |T 3 1 / T 3 1 / T 3 1 / end limit 3\n\
    * conditions of all kinds\n\
    #2=WORKPLAN('',(#3),$);#3=IF_STATEMENT('',#4,#6,#10);#4=AND_EXPRESSION((#5,#7));#5=NOT_EXPRESSION(#8);#7=XOR_EXPRESSION(#8,#11);#8=COMPARISON_LESS(2.,1.);#11=OR_EXPRESSION((#8,#12));#12=COMPARISON_GREATER_EQUAL(1.,1.);#6=DISPLAY_MESSAGE('');#10=MACHINING_WORKINGSTEP('',#150,#120,#130);\n\
    |T 3 1 / M 6 / end done 2\n";

/// Values, and what an assignment of them gives. Of the variables and constants #8 is worth 7 and #11 is worth -0.5.
const VALUES: &str = "!NC_SUM(1.,2.5)|3500\n\
    !NC_DIFFERENCE(1.,2.5)|-1500\n\
    !NC_PRODUCT(2.5,2.5)|6250\n\
    !NC_PRODUCT(-0.5,0.001)|0\n\
    !NC_PRODUCT(-1.5,0.333)|-499\n\
    !NC_PRODUCT(1.5,0.333)|499\n\
    !NC_SUM(1.E12,1.)|1000000000000000\n\
    !NC_DIFFERENCE(-1.E12,1.)|-1000000000000000\n\
    !NC_PRODUCT(1.E12,1.E12)|1000000000000000\n\
    !NC_PRODUCT(-1.E12,1.E12)|-1000000000000000\n\
    !NC_SUM(#8,#8)|14000\n\
    !NC_PRODUCT(#8,#11)|-3500\n";

/// Comparisons, and 1 where they hold.
const COMPARISONS: &str = "EQUAL(2.,2.)|1\n\
    EQUAL(2.,3.)|0\n\
    NOT_EQUAL(2.,2.)|0\n\
    NOT_EQUAL(2.,3.)|1\n\
    GREATER(3.,2.)|1\n\
    GREATER(2.,2.)|0\n\
    GREATER_EQUAL(2.,2.)|1\n\
    GREATER_EQUAL(1.,2.)|0\n\
    LESS(1.,2.)|1\n\
    LESS(2.,2.)|0\n\
    LESS_EQUAL(2.,2.)|1\n\
    LESS_EQUAL(3.,2.)|0\n";

/// The channels of a schedule's digits.
fn channels(alloc: Global, digits: &str) -> Result<Vec<u8>, Fail> {
    let mut list = Vec::new(alloc);
    for digit in digits.bytes() {
        list.push(digit.wrapping_sub(b'0'))?;
    }
    Ok(list)
}

/// The entries of a log, and its last line.
fn entries_and_last(log: &str) -> (&str, &str) {
    log.rsplit_once(" / ").unwrap_or(("", log))
}

/// The most entries up to which a run is looked at: one more than it has, or as many where it would go on.
fn most_entries(lines: &str, last: &str) -> u32 {
    let count = count_of(lines);
    if last.starts_with("end limit") {
        count
    } else {
        count.saturating_add(1)
    }
}

/// Stops unless the run up to this limit gives what of the whole run it should.
fn expect_up_to(
    rt: &impl Abort,
    alloc: Global,
    data: &str,
    row: &str,
    limit: u32,
) -> Result<(), Fail> {
    let (turns, log) = row.split_once('|').unwrap_or(("", row));
    let (digits, edits) = turns.split_once('~').unwrap_or((turns, ""));
    let (entries, last) = entries_and_last(log);
    let lines = lines_of(alloc, entries)?;
    let wanted = log_up_to(alloc, &lines, last, limit)?;
    let schedule = channels(alloc, digits)?;
    expect_run(
        rt,
        alloc,
        data,
        edits,
        schedule.as_slice(),
        limit,
        &wanted,
        row,
    )
}

/// Stops unless the run up to every limit, up to one above its length, gives what it should, and one with much room too.
fn expect_row(rt: &impl Abort, alloc: Global, data: &str, row: &str) -> Result<(), Fail> {
    let (_, log) = row.split_once('|').unwrap_or(("", row));
    let (entries, last) = entries_and_last(log);
    let lines = lines_of(alloc, entries)?;
    let most = most_entries(&lines, last);
    for below in 0..most {
        expect_up_to(rt, alloc, data, row, below.wrapping_add(1))?;
    }
    if !last.starts_with("end limit") {
        expect_up_to(rt, alloc, data, row, 1_000)?;
    }
    Ok(())
}

/// Stops unless each row of a part of a table is right.
fn expect_part(rt: &impl Abort, alloc: Global, part: &str) -> Result<(), Fail> {
    let (_, project) = part.split_once('\n').unwrap_or((part, ""));
    let (data, rows) = project.split_once('\n').unwrap_or((project, ""));
    for row in rows.lines() {
        expect_row(rt, alloc, data, row)?;
    }
    Ok(())
}

/// Stops unless each row of the table is right.
pub(crate) fn expect_rows(rt: &impl Abort, alloc: Global, table: &str) -> Result<(), Fail> {
    for part in table.split("* ") {
        expect_part(rt, alloc, part)?;
    }
    Ok(())
}

#[test]
fn steps_and_channels(rt: HostRuntime) -> Result<(), Fail> {
    expect_rows(&rt, rt.alloc(), STEPS)
}

#[test]
fn marks_and_waits(rt: HostRuntime) -> Result<(), Fail> {
    expect_rows(&rt, rt.alloc(), MARKS)
}

#[test]
fn orders_and_choices(rt: HostRuntime) -> Result<(), Fail> {
    expect_rows(&rt, rt.alloc(), ORDERS)
}

#[test]
fn tests_loops_and_variables(rt: HostRuntime) -> Result<(), Fail> {
    expect_rows(&rt, rt.alloc(), TESTS)
}

#[test]
fn values_of_assignments(rt: HostRuntime) -> Result<(), Fail> {
    let alloc = rt.alloc();
    for row in VALUES.lines() {
        let (value, worth) = row.split_once('|').unwrap_or((row, ""));
        let data = format!(in alloc;
            "#2=WORKPLAN('',(#3),$);#3=ASSIGNMENT('',#5,#6);#5=NC_VARIABLE('',7.);#6={value};#8=NC_VARIABLE('',7.);#11=NC_CONSTANT('',-0.5);"
        )?;
        let run = format!(in alloc; "|A 3 {worth} / end done 1")?;
        expect_row(&rt, alloc, &data, &run)?;
    }
    Ok(())
}

#[test]
fn comparisons_that_are_tested(rt: HostRuntime) -> Result<(), Fail> {
    let alloc = rt.alloc();
    for row in COMPARISONS.lines() {
        let (compared, holds) = row.split_once('|').unwrap_or((row, ""));
        let data = format!(in alloc;
            "#2=WORKPLAN('',(#3),$);#3=IF_STATEMENT('',#4,#6,$);#4=COMPARISON_{compared};#6=WORKPLAN('',(),$);"
        )?;
        let run = format!(in alloc; "|T 3 {holds} / end done 1")?;
        expect_row(&rt, alloc, &data, &run)?;
    }
    Ok(())
}
