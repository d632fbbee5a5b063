// The notation of the program compare: lines in, one line of answer each. The forms of a line and the ops of a script are read here, what they are made of
// in `fields`; `say` prints. It is part of a harness and promises only that it doesn't trip; what is answered is held to a file of another origin (tests/model.py).
//
// A line has at most 65,535 bytes before its end, and its fields stand apart by one space. Blank lines and lines that begin with `#` are skipped.
// The first field may be `verbose`, `connect` (R-3) or `numeric` (R-1), the digester of the case; without it that is `verbose`, document 01's. Of the fields behind
// it, a comma in the first tells the form, else their number does.
// TABLE INPUT is a digest case; TABLE BUFFER SLOT-MEMORY QUEUE-MEMORY OPS an ingress case from end 0, a new slot and an empty queue;
// STATE TABLE BUFFER SLOT-MEMORY QUEUE-MEMORY OPS one from any state, where STATE is
// END,SIGNALLED,LENGTH,SLOT-LOST,START,COUNT,QUEUE-LOST,SERIAL (SIGNALLED 0 or 1; the slot holds an Ok).
// convert START,COUNT,LOST OLD-MEMORY NEW-MEMORY is a conversion (R-9) of a queue in the old form; it has no digester, and no word stands before it.
// list INPUT is the reading of a parameter list (R-4), the bytes of an answer behind its colon; no word stands before it either.
// say TABLE KIND NUMBER PAYLOAD OUTPUT is an answer to be written (R-12) into the memory OUTPUT: KIND is none, ok, prompt, cme, cms, unknown, notallowed, error,
// nocarrier, busy, noanswer, nodialtone, custom or notice, NUMBER `-` for none; no word stands before it either. It is read in `sayings`.
//
// Bytes are `-` for none, or parts joined by `+`, a part being hex in either case or COUNT*HH, one byte that many times.
// Bytes of one field, or of one op, are at most 65,536; numbers are decimal, at most 4,294,967,295.
// OPS is `-`, or ops joined by `;`: Wbytes write; Abytes put the bytes into the room and advance by as many (where they don't fit nothing is put, and
// advance is called all the same); Mn advance by n; C clear; R reset with the serial number after the one in force (4,294,967,295 is followed by 0); Rn with n
// (R-11); T take; L lookup; Obytes signal an Ok; Pn a prompt, n up to 255; En a CME code, n up to 65,535, with its digits in decimal, no zeros in front;
// En,bytes with these digits; B BUSY.
// With findings (R-14): Fbytes write; Gbytes put and advance as A does; X gives empty ones without a word to the buffer. They are kept from op to op. At the start and
// after each W, A and M, refused ones too, they are found afresh in what the buffer holds, as far as it reaches; C gives empty ones.
//
// A digest case answers KIND NUMBER PLACE LENGTH CONSUMED, `-` for no number, and behind it, where the answer has digits, ` digits PLACE LENGTH`,
// and where it has a text, ` text PLACE LENGTH`; a refusal is `refused N`, at 2 with the record's number. The others answer a part for each op, each ended by `;`, a
// space, and the last state. A write answers `took N`, an advance `advanced`, a take `notice NUMBER HEX` or `nothing`, a lookup `held KIND NUMBER HEX serial N` (R-11)
// or `nothing`, the others `done`; a refusal as above, a write's 5 `refused 5 took N`. The last state is
// end N buffer HEX slot free|signalled KIND NUMBER LENGTH LOST serial N memory HEX queue START COUNT LOST memory HEX, KIND `capacity` for CapacityError,
// and behind it, on lines with an F, G or X only, ` findings N`, how many bytes the findings are about.
// A conversion answers `converted START COUNT LOST memory HEX`, the new queue and its memory, or `refused 3`, `refused 13`.
// A list answers its elements joined by `;`, each PLACE,END,KIND,DEPTH, and behind it a number's `,VALUE` or a range's `,LOW,HIGH`, or `refused N PLACE`.
// KIND is one of empty number range string list; END is one past the last byte, of an empty element its PLACE.
// An answer to be written answers `said LENGTH memory HEX`, how many bytes it has and all of the output memory then, or `refused 2 RECORD`, `refused 16`, `refused 17`.
// What doesn't read in this notation, or is over a limit, is answered `bad line`, and nothing of the line is done.
#![tactic(auto)]

pub mod form;
pub mod op;
