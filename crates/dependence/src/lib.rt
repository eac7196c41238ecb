// On which declarations a declaration depends: what the question for it answers and leaves. Document 02, Req 05, 09. Definitions and theorems alone.
#![tactic(auto)]
