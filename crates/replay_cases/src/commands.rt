// The command lines.

// Their words are parted by one space.
pub const COMMANDS: [&str; 23] = [
    "--store row --answers --book ABCD --orders 64 --executions 64 --symbols 16",
    "--store hashed --answers --book ABCD --orders 64 --executions 64 --symbols 16",
    "--store spread --answers --book ABCD --orders 64 --executions 64 --symbols 16",
    "--store row --front --answers --book ABCD --orders 64 --executions 64 --symbols 16",
    "--store hashed --front --answers --book ABCD --orders 64 --executions 64 --symbols 16",
    "--store spread --front --answers --book ABCD --orders 64 --executions 64 --symbols 16",
    "--store row --answers --orders 2 --executions 2 --symbols 1 --day-limit 10",
    "--store hashed --answers --orders 2 --executions 2 --symbols 1 --day-limit 10",
    "--store spread --answers --orders 2 --executions 2 --symbols 1 --day-limit 10",
    "--orders 0 --executions 0 --symbols 0 --day-limit 0",
    "--book NONE --orders 64 --executions 64 --symbols 16 --quiet",
    "--help",
    "--store tree",
    "--store",
    "--orders 12x",
    "--executions 18446744073709551616",
    "--symbols -1",
    "--day-limit",
    "--book TOOLONGSYM",
    "--book \u{e9}",
    "--books ABCD",
    "-q",
    "one two",
];
