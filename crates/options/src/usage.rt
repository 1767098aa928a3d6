// What is shown for --help.

pub const USAGE: &str =
    "usage: replay [--store row|hashed|spread] [--front] [--orders N] [--executions N] [--symbols N] [--day-limit N] [--answers] [--book SYMBOL] [--quiet] [FILE]

Keeps the day of a file of the feed's lines, or of standard input, and prints what has traded of each symbol,
of all symbols together, how many lines were read and accepted, and how often each refusal came.

  --store row|hashed|spread   how records are kept (hashed)
  --front                     sixteen orders in front of their store
  --orders N                  room for so many resting orders (1048576)
  --executions N              room for so many executions and trades (4194304)
  --symbols N                 room for so many symbols (16384)
  --day-limit N               accept so many messages at most (1000000000)
  --answers                   print what each line is answered
  --book SYMBOL               print what rests of the symbol on each side
  --quiet                     show no progress on standard error
  --help                      print this
";
