// Core text: its forms and its reading order. Definitions and theorems alone.
#![tactic(auto)]
