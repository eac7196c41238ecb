// What reading a core text leaves, and what it has to do with the source that it was printed from. Definitions and theorems alone.
#![tactic(auto)]
