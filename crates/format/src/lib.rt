// Lines of numbers: numerals, fields, job lines and answer lines as bytes. No shape is known here. The definition, in specs/.
#![tactic(auto)]
