// The core text of a source: what printing it answers and leaves. Definitions and theorems alone.
#![tactic(auto)]
