// No code: the areas of bytes that a C program lends, and the store that they hold.
#![tactic(auto)]
