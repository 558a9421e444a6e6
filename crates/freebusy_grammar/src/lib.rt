// The grammar of the line FREEBUSY as RFC 5545 writes it, in specs/, and the law that freebusy_property takes exactly its lines, in proofs/. There is no code here.
#![tactic(auto)]
