// Document 01's twelve marked cases and its example, proved of the definitions. No code.
