// `help`: the calls and their replies.
use printing::{Lines, Outputs};

pub fn help(out: &mut Lines<'_, impl Outputs>) {
    out.word(
        b"open SEAT CELL CASE K LONG SHORT        ok\n\
            book SEAT SLOT up|down TYPE FACTOR INDEX USER TFCI TPC\n\
            \x20                                       ok\n\
            cancel SEAT SLOT FACTOR INDEX           ok\n\
            close SEAT                              ok\n\
            list SEAT                               list N, then N lines\n\
            \x20                                       SLOT up|down TYPE FACTOR INDEX USER TFCI TPC\n\
            summary SEAT SLOT                       summary LEAVES up|down|none N, LEAVES being 16 digits with no blanks between\n\
            chip CELL TYPE COUNT USER I             chip P\n\
            midamble CELL TYPE COUNT USER           midamble and its chips, digits 0 to 3\n\
            block CELL TYPE COUNT USER PLACE LENGTH block N and N chips, those behind the first PLACE, as many as LENGTH bytes take\n\
            pair CELL TYPE COUNT USER I LEVEL       pair RE IM, for the signal card at a level of 1 to 2047\n\
            pairs CELL TYPE COUNT USER LEVEL        pairs and RE IM of every chip\n\
            hear CELL TYPE COUNT SAMPLE ..          nobody, or user K RE IM: who is heard best in the samples, and the two sums\n\
            parts TYPE up|down FACTOR TFCI TPC      parts, seven START+LENGTH, bits B1 B2\n\
            at TYPE up|down FACTOR TFCI TPC CHIP    data1, tfci1, midamble, tpc, tfci2, data2 or guard, and N\n\
            beacon CASE K                           beacon and one or two timeslots\n\
            indicator TYPE L F PI                   frame X q Y bits A..B C..D\n\
            page TYPE L SETTINGS                    bits and 244 or 276 digits in time order\n\
            read TYPE L BITS                        settings and one digit for each q: 0, 1 or 2 for torn\n\
            owner TYPE L BIT                        q Y, or reserved\n\
            help                                    this table\n\
            COUNT and LONG are 16, 8 or 4, for type 2 COUNT and SHORT 6 or 3; in open 0 stands for 8 and 3. Users are 1 to the count, under 4 only 1, 3, 5 and 7.\n\
            In one timeslot a seat books one direction, type 2 apart from types 1 and 3, and no leaf of a code twice.\n\
            A call that is refused says 'refused N:' and why. SETTINGS and BITS are words of the digits 0 and 1. '#' starts a comment.\n\
            A SAMPLE is a whole number from -2047 to 2047: RE then IM of each chip, 1024 of them, for type 2 512; further ones are not read.\n",
    );
}
