// Facts about whole numbers that the library lacks; they stand in specs/, and there are no functions.
#![tactic(auto)]
